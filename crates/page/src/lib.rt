// The page: its rows, and the edits that a step makes.
#![tactic(auto)]

pub mod edits;
pub mod rows;

use cells::CellChange;

// What one step does to a page. Rows and columns are counted from 0, and a range ends before its
// `end`, `right` or `to`. `from` and `to` count cells in reading order. The scope moves whole rows,
// columns 0 to 80, and cells up to the row's end; the ranges are there for margins to come. A block stands as its four
// numbers (rows::Block is no shorter where an edit is built, and the definitions and theorems of six crates match these).
#[derive(Clone, Copy)]
pub enum Edit {
    // No cell. (One of the arms of each match, where an Option would have two levels.)
    Keep,
    // A word into one cell.
    Put {
        row: u8,
        column: u8,
        word: u16,
    },
    // The cells of a row from `column` go right by `count`, and `word` enters `count` times.
    InsertCells {
        row: u8,
        column: u8,
        end: u8,
        count: u8,
        word: u16,
    },
    // The cells of a row go left by `count` onto `column`, and blanks enter before `end`.
    DeleteCells {
        row: u8,
        column: u8,
        end: u8,
        count: u8,
    },
    // Rows `top` to `end` go up or down by `count` in the columns `left` to `right`, and blanks enter.
    ScrollUp {
        top: u8,
        end: u8,
        left: u8,
        right: u8,
        count: u8,
    },
    ScrollDown {
        top: u8,
        end: u8,
        left: u8,
        right: u8,
        count: u8,
    },
    // Each cell of a range becomes `word`, or changes by what it holds.
    FillRange {
        from: u16,
        to: u16,
        word: u16,
    },
    ChangeRange {
        from: u16,
        to: u16,
        change: CellChange,
    },
    // Rows `top` to `end` in the columns `left` to `right`: each cell becomes `word`, or changes by what it holds.
    FillRectangle {
        top: u8,
        end: u8,
        left: u8,
        right: u8,
        word: u16,
    },
    ChangeRectangle {
        top: u8,
        end: u8,
        left: u8,
        right: u8,
        change: CellChange,
    },
    // Each cell of these becomes what stood at its place in the rectangle of the same size that begins at
    // `row` and `column`.
    CopyRectangle {
        top: u8,
        end: u8,
        left: u8,
        right: u8,
        row: u8,
        column: u8,
    },
}
