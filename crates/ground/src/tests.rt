// Tests on numbers.
ghost use Rattle.std.specs.Prelude.{◌≡◌};
ghost use Rattle.ground.specs.Tests as tests;

// Both ends are inside. No branch, as `contains` of a range has.
pub fn between(low: u8, n: u8, high: u8) -> bool
    ensures { result ≡ tests.between low n high }
{
    (low <= n) & (n <= high)
}
