// The terminal's calls: start, feed, ask for the changed rows, read a cell, a row, the cursor.
#![tactic(auto)]

use steps::State;

pub mod answers;
pub mod calls;
pub mod rows;
pub mod whole;

// Why a call is refused. The numbers are in specs/Answers.antt (SCOPE 2).
#[derive(Clone, Copy, Debug, PartialEq, Eq)]
pub enum Refusal {
    // The state is not whole, or, at a start, there is no page of so many rows.
    Broken,
    // Page or line is of another length.
    WrongSize,
    // No such row or cell is on the page.
    OffPage,
}

// A refused call: why, and what it returns all the same (SCOPE 2).
#[derive(Clone, Copy, PartialEq, Eq)]
pub struct Refused<T> {
    pub refusal: Refusal,
    pub returned: T,
}

// The changed rows, how many they are, the line's flag, and the state with neither.
#[derive(Clone, Copy)]
pub struct Asked {
    pub rows: u64,
    pub count: u32,
    pub flag: bool,
    pub state: State,
}

// Where the cursor is on the page, whether a wrap is due, and whether it is shown.
#[derive(Clone, Copy)]
pub struct CursorRead {
    pub row: u8,
    pub column: u8,
    pub wrap: bool,
    pub shown: bool,
}
