// Numbers that are held to a bound.
ghost use Rattle.std.specs.Prelude.{◌≡◌, cond, ◌+◌, ◌-◌, min, max};

// `n` back from a place, but not below `stop`.
pub fn back(from: u8, n: u16, stop: u8) -> u8
    ensures { result ≡ max stop (from - n) }
{
    (u16::from(from).saturating_sub(n) as u8).max(stop)
}

// `n` on from a place, but not above `stop`.
pub fn on(from: u8, n: u16, stop: u8) -> u8
    ensures { result ≡ min stop (from + n) }
{
    u16::from(from).saturating_add(n).min(u16::from(stop)) as u8
}

// `n`, but not above `most`.
pub fn capped(n: u16, most: u8) -> u8
    ensures { result ≡ min n most }
{
    n.min(u16::from(most)) as u8
}

// `n`, 0 as 1.
pub fn or_one(n: u16) -> u16
    ensures { result ≡ max 1 n }
{
    n.max(1)
}

// A place, held to `low` and `high`; `low` where they cross, which `clamp` would not take.
pub fn held(place: u8, low: u8, high: u8) -> u8
    ensures { result ≡ max low (min high place) }
{
    place.min(high).max(low)
}

// One of two values, by a test.
pub fn pick<T: Copy>(test: bool, yes: T, no: T) -> T
    ensures { result ≡ cond test yes no }
{
    if test { yes } else { no }
}
