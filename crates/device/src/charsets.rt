// Character sets: which set is designated to G0 to G3, and which of these printing uses.
ghost use Rattle.std.specs.Prelude.{◌≡◌};
ghost use Rattle.device.specs.Charsets.{fresh_sets, has96, set_in, designated, with_gl, with_gr, left_set, right_set};
ghost use Rattle.device.specs.Charsets.{register_number, register_of, shift_number, shift_of};

use cells::CharSet;

#[derive(Clone, Copy, PartialEq, Eq, Debug)]
pub enum Register {
    G0,
    G1,
    G2,
    G3,
}

// A pending single shift.
// (No `Option` of two variants: it takes two bytes, and `columns`, `random` and `final` then exceed bench/bounds.txt by 5 %.)
#[derive(Clone, Copy, PartialEq, Eq, Debug)]
pub enum SingleShift {
    NoShift,
    Ss2,
    Ss3,
}

#[derive(Clone, Copy)]
pub struct Sets {
    pub g0: CharSet,
    pub g1: CharSet,
    pub g2: CharSet,
    pub g3: CharSet,
    pub gl: Register,
    pub gr: Register,
}

// ---- registers and shifts as numbers, and back; a number past the last counts as the last

impl From<Register> for u8 {
    ghost from_gives = { λ r n. n ≡ register_number r };

    fn from(register: Register) -> u8 {
        match register {
            Register::G0 => 0,
            Register::G1 => 1,
            Register::G2 => 2,
            Register::G3 => 3,
        }
    }
}

impl From<u8> for Register {
    ghost from_gives = { λ n r. r ≡ register_of n };

    fn from(number: u8) -> Register {
        match number {
            0 => Register::G0,
            1 => Register::G1,
            2 => Register::G2,
            _ => Register::G3,
        }
    }
}

impl From<SingleShift> for u8 {
    ghost from_gives = { λ s n. n ≡ shift_number s };

    fn from(shift: SingleShift) -> u8 {
        match shift {
            SingleShift::NoShift => 0,
            SingleShift::Ss2 => 1,
            SingleShift::Ss3 => 2,
        }
    }
}

impl From<u8> for SingleShift {
    ghost from_gives = { λ n s. s ≡ shift_of n };

    fn from(number: u8) -> SingleShift {
        match number {
            0 => SingleShift::NoShift,
            1 => SingleShift::Ss2,
            _ => SingleShift::Ss3,
        }
    }
}

// ---- sets

// Latin-1 has 96 signs, the others 94.
pub fn has_96(set: CharSet) -> bool
    ensures { result ≡ has96 set }
{
    set == CharSet::Latin1
}

impl Sets {
    pub fn fresh() -> Self
        ensures { result ≡ fresh_sets }
    {
        Sets {
            g0: CharSet::Ascii,
            g1: CharSet::Ascii,
            g2: CharSet::Supplemental,
            g3: CharSet::Supplemental,
            gl: Register::G0,
            gr: Register::G2,
        }
    }

    // The set that is designated to a register.
    pub fn set_in(self, register: Register) -> CharSet
        ensures { result ≡ set_in self register }
    {
        match register {
            Register::G0 => self.g0,
            Register::G1 => self.g1,
            Register::G2 => self.g2,
            Register::G3 => self.g3,
        }
    }

    // SCS.
    pub fn designate(mut self, register: Register, set: CharSet) -> Self
        ensures { result ≡ designated self register set }
    {
        match register {
            Register::G0 => self.g0 = set,
            Register::G1 => self.g1 = set,
            Register::G2 => self.g2 = set,
            Register::G3 => self.g3 = set,
        }
        self
    }

    // SO, SI, LS2, LS3.
    pub fn into_gl(mut self, register: Register) -> Self
        ensures { result ≡ with_gl self register }
    {
        self.gl = register;
        self
    }

    // LS1R, LS2R, LS3R.
    pub fn into_gr(mut self, register: Register) -> Self
        ensures { result ≡ with_gr self register }
    {
        self.gr = register;
        self
    }

    // The set that 20 to 7F uses.
    pub fn left_set(self, shift: SingleShift) -> CharSet
        ensures { result ≡ left_set self shift }
    {
        match shift {
            SingleShift::NoShift => self.set_in(self.gl),
            SingleShift::Ss2 => self.g2,
            SingleShift::Ss3 => self.g3,
        }
    }

    // The set that A0 to FF uses.
    pub fn right_set(self) -> CharSet
        ensures { result ≡ right_set self }
    {
        self.set_in(self.gr)
    }
}
