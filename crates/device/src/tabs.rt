// The tab stops.
ghost use Rattle.std.specs.Prelude.{◌≡◌, ◌-◌, ◌/◌, ◌%◌, ◌≤◌, ◌<◌, ◌^◌};
ghost use Rattle.device.specs.Tabs.{is_tab, with_tab, without_tab, no_tabs, next_tab};
ghost use Rattle.device.specs.TabSearch.{any_among, searched};

// Eighty flags, eight to a byte: column 1 is the lowest bit of the first byte. (The record for C holds these bytes.)
#[derive(Clone, Copy)]
pub struct Tabs {
    pub flags: [u8; 10],
}

// Where a search for the next tab ended, and how many looks it took: at one flag, or at eight together.
#[derive(Clone, Copy)]
pub struct Found {
    pub column: u8,
    pub looks: u8,
}

// Where a column's flag is: its byte, and its bit there.
fn flag_of(column: u8) -> (usize, u8)
    requires { (1 ≤ column) × (column ≤ 80) }
    ensures byte { result.0 ≡ (column - 1) / 8 }
    ensures bit { result.1 ≡ 2 ^ ((column - 1) % 8) }
{
    let place = column - 1;
    ((place / 8) as usize, 1u8 << (place % 8))
}

impl Tabs {
    // A look at one flag.
    pub fn get(self, column: u8) -> bool
        requires { (1 ≤ column) × (column ≤ 80) }
        ensures { result ≡ is_tab self column }
    {
        let (at, bit) = flag_of(column);
        self.flags[at] & bit != 0
    }

    // HTS.
    pub fn set(mut self, column: u8) -> Self
        requires { (1 ≤ column) × (column ≤ 80) }
        ensures { result ≡ with_tab self column }
    {
        // (A flag that is set is left, and in `clear` one that is not: a byte that is stored, and at once loaded with those
        // beside it, stalls.)
        if self.get(column) {
            return self;
        }
        let (at, bit) = flag_of(column);
        self.flags[at] |= bit;
        self
    }

    // TBC 0.
    pub fn clear(mut self, column: u8) -> Self
        requires { (1 ≤ column) × (column ≤ 80) }
        ensures { result ≡ without_tab self column }
    {
        if self.get(column) {
            let (at, bit) = flag_of(column);
            self.flags[at] &= !bit;
        }
        self
    }

    // TBC 3.
    pub fn clear_all(self) -> Self
        ensures { result ≡ no_tabs }
    {
        Tabs { flags: [0; 10] }
    }

    // A look at eight flags together, those right of `column`: is one of them set?
    fn any(self, column: u8) -> bool
        requires { (column < 80) × (column % 8 ≡ 0) }
        ensures { result ≡ any_among 8 self column }
    {
        self.flags[(column / 8) as usize] != 0
    }

    // The next tab right of a column, else the last column. Where an eight begins it is looked at as a whole, and passed
    // over if it has no tab. Each look stands beside its count, and the flags are read by `get` and `any` alone.
    // (A `while`, since the column goes on by one or by eight.)
    pub fn search(self, column: u8) -> Found
        ensures { result ≡ searched self column }
    {
        let mut at = column;
        let mut looks: u8 = 0;
        while at < 80 {
            let mut empty = false;
            if at % 8 == 0 {
                looks += 1;
                empty = !self.any(at);
            }
            if empty {
                at += 8;
            } else {
                at += 1;
                looks += 1;
                if self.get(at) {
                    return Found { column: at, looks };
                }
            }
        }
        Found { column: at, looks }
    }

    // HT: the next tab right of a column, else the last column.
    pub fn next(self, column: u8, last: u8) -> u8
        requires { last ≤ 80 }
        ensures { result ≡ next_tab self column last }
    {
        if last <= column {
            return column;
        }
        self.search(column).column.min(last)
    }
}
