// Changed rows: a set of rows is the bits of one u64, the first row's the lowest. Sets are joined by `|`.
ghost use Rattle.std.specs.Prelude.{◌≡◌, ℕ, ◌*◌, ◌^◌, ◌<◌};
ghost use Rattle.cells.specs.Cells.{bit};
ghost use Rattle.cells.specs.Sets.{has_bit, size_of};

// The bit of a row, if it changed.
pub fn row_bit(row: u8, changed: bool) -> u64
    requires { row < 64 }
    ensures { result ≡ bit changed * 2 ^ row }
{
    u64::from(changed) << row
}

// Whether a row is in a set.
pub fn has_bit(bits: u64, row: u8) -> bool
    requires { row < 64 }
    ensures { result ≡ has_bit bits row }
{
    (bits >> row) % 2 == 1
}

// How many rows are in a set: of a page of n rows, for any n that has room for the bits.
pub fn count_rows(bits: u64) -> u32
    ensures { (n : ℕ) → bits < 2 ^ n → result ≡ size_of n (has_bit bits) }
{
    u64::count_ones(bits)
}
