// Numbers in decimal.
ghost use Rattle.std.specs.Prelude.{length};
ghost use Rattle.ground.specs.Decimals.{decimal};
ghost use Rattle.ground.specs.Writes.{Counted, Appended, Room};

use crate::writing::Writer;

// How many digits a number has.
pub fn decimal_len(n: u8) -> usize
    ensures { Counted (decimal n) 3 result }
{
    match n {
        0..=9 => 1,
        10..=99 => 2,
        _ => 3,
    }
}

impl<'a> Writer<'a> {
    // Its digits.
    pub fn decimal(&mut self, n: u8)
        requires { Room self.old (length (decimal n)) }
        ensures { Appended self.old (decimal n) self.new }
    {
        match n {
            0..=9 => self.byte(b'0' + n),
            10..=99 => {
                self.byte(b'0' + n / 10);
                self.byte(b'0' + n % 10);
            }
            _ => {
                self.byte(b'0' + n / 100);
                self.byte(b'0' + n / 10 % 10);
                self.byte(b'0' + n % 10);
            }
        }
    }
}
