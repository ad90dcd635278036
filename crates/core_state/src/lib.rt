// The state of the terminal but for what is tracked of cells: fresh, whole, where things stop, the cell that a byte puts, the
// status line as a page of one row, and what a byte does to it.
#![tactic(auto)]

pub mod effects;
pub mod fresh;
pub mod geometry;
pub mod glyphs;
pub mod pens;
pub mod status;
pub mod whole;

use cells::Rendition;
use device::charsets::{Sets, SingleShift};
use device::cursor::Cursor;
use device::tabs::Tabs;
use page::Edit;
use parser::parser::Parser;

// Rows T to B scroll.
#[derive(Clone, Copy)]
pub struct Margins {
    pub top: u8,
    pub bottom: u8,
}

// `shown` is the cursor's (DECTCEM); `eightbit` sends a reply's CSI as one byte (S8C1T); with `rectangle` the
// attributes of a rectangle are changed, else those of a stream (DECSACE).
#[derive(Clone, Copy, Default)]
pub struct Modes {
    pub insert: bool,
    pub newline: bool,
    pub origin: bool,
    pub autowrap: bool,
    pub shown: bool,
    pub eightbit: bool,
    pub rectangle: bool,
}

// What ESC 7 saves (DECSC).
#[derive(Clone, Copy)]
pub struct Saved {
    pub cursor: Cursor,
    pub rendition: Rendition,
    pub origin: bool,
    pub sets: Sets,
    pub protected: bool,
    pub shift: SingleShift,
}

// (No invariant: `feed` takes any state, and `FeedExact` in demands says which are answered as broken. So contracts ask for `Bounds`.)
#[derive(Clone, Copy)]
pub struct Core {
    pub rows: u8,
    pub cursor: Cursor,
    pub margins: Margins,
    pub tabs: Tabs,
    pub modes: Modes,
    pub rendition: Rendition,
    pub protected: bool,
    pub sets: Sets,
    pub shift: SingleShift,
    pub saved: Saved,
    pub parser: Parser,
}

// What ESC 7 saves while the status line is active: a line has one row and no origin.
#[derive(Clone, Copy)]
pub struct LineSaved {
    pub column: u8,
    pub wrap: bool,
    pub rendition: Rendition,
    pub sets: Sets,
    pub protected: bool,
    pub shift: SingleShift,
}

// The host-writable status line but for its cells: whether there is one (DECSSDT), whether bytes act on it (DECSASD),
// where its cursor is, and what is saved of it.
#[derive(Clone, Copy)]
pub struct StatusLine {
    pub present: bool,
    pub active: bool,
    pub column: u8,
    pub wrap: bool,
    pub saved: LineSaved,
}

// All of the state that decides what a byte does: the core, which is the page's, and the line.
#[derive(Clone, Copy)]
pub struct Displays {
    pub core: Core,
    pub line: StatusLine,
}

// What a byte does: the next core, and the edits of its one or two steps, `Keep` where a step leaves
// the page.
#[derive(Clone, Copy)]
pub struct Decision {
    pub core: Core,
    pub first: Edit,
    pub second: Edit,
}
