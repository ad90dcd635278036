// What a cell holds, as a word, and what becomes of it; segments of words; rows; sets of rows.
#![tactic(auto)]

pub mod marks;
pub mod rows;
pub mod runs;
pub mod segments;
pub mod words;

// Cells in a row of the page.
pub const COLUMNS: usize = 80;

// The word of a blank cell: code 20 of ASCII, no flag.
pub const BLANK: u16 = 0x20;

// The character sets. The first three have 94 signs, Latin-1 has 96.
#[derive(Clone, Copy, PartialEq, Eq, Debug)]
pub enum CharSet {
    Ascii,
    SpecialGraphics,
    Supplemental,
    Latin1,
}

// The visual attributes that SGR selects.
#[derive(Clone, Copy, Default, PartialEq, Eq, Debug)]
pub struct Rendition {
    pub bold: bool,
    pub underline: bool,
    pub blink: bool,
    pub reverse: bool,
}

// A cell, taken apart. Of the code, the lowest seven bits count.
#[derive(Clone, Copy, PartialEq, Eq, Debug)]
pub struct Cell {
    pub code: u8,
    pub set: CharSet,
    pub rendition: Rendition,
    pub protected: bool,
}

// What becomes of one attribute.
#[derive(Clone, Copy, PartialEq, Eq, Debug)]
pub enum Setting {
    Same,
    On,
    Off,
    Flipped,
}

// What becomes of each attribute.
#[derive(Clone, Copy, PartialEq, Eq, Debug)]
pub struct Styling {
    pub bold: Setting,
    pub underline: Setting,
    pub blink: Setting,
    pub reverse: Setting,
}

// What becomes of a cell, by what it holds.
#[derive(Clone, Copy, PartialEq, Eq, Debug)]
pub enum CellChange {
    // A space of ASCII that keeps its flags, unless the cell is protected.
    SelectiveErase,
    // Other attributes, by the number of a styling; code, set and protection stay. (A number: with a styling in its
    // place an edit misses the bar of eight bytes, one register; docs/DECISIONS.md, "Shape".)
    Restyle { styling: u8 },
}
