// The state that a record holds. A flag is on at 1, and off at any other number; a record with such a number is refused.
ghost use Rattle.std.specs.Prelude.{◌≡◌};
ghost use Rattle.record.specs.Record as records;

use crate::{
    CursorRecord, LineSavedRecord, ModesRecord, ParserRecord, RenditionRecord, SavedRecord,
    SetsRecord, StatusRecord, Terminal,
};
use cells::{CharSet, Rendition};
use core_state::{Core, Displays, LineSaved, Margins, Modes, Saved, StatusLine};
use device::charsets::{Register, Sets, SingleShift};
use device::cursor::Cursor;
use device::tabs::Tabs;
use ground::numbers::pick;
use parser::params::Params;
use parser::parser::Parser;
use parser::phases::Phase;
use steps::{State, Tracked};

impl From<CursorRecord> for Cursor {
    ghost from_gives = { λ r s. s ≡ records.cursor_of r };

    fn from(cursor: CursorRecord) -> Cursor {
        Cursor {
            row: cursor.row,
            column: cursor.column,
            wrap: cursor.wrap == 1,
        }
    }
}

impl From<ModesRecord> for Modes {
    ghost from_gives = { λ r s. s ≡ records.modes_of r };

    fn from(modes: ModesRecord) -> Modes {
        Modes {
            insert: modes.insert == 1,
            newline: modes.newline == 1,
            origin: modes.origin == 1,
            autowrap: modes.autowrap == 1,
            shown: modes.shown == 1,
            eightbit: modes.eightbit == 1,
            rectangle: modes.rectangle == 1,
        }
    }
}

impl From<RenditionRecord> for Rendition {
    ghost from_gives = { λ r s. s ≡ records.rendition_of r };

    fn from(rendition: RenditionRecord) -> Rendition {
        Rendition {
            bold: rendition.bold == 1,
            underline: rendition.underline == 1,
            blink: rendition.blink == 1,
            reverse: rendition.reverse == 1,
        }
    }
}

impl From<SetsRecord> for Sets {
    ghost from_gives = { λ r s. s ≡ records.sets_of r };

    fn from(sets: SetsRecord) -> Sets {
        Sets {
            g0: CharSet::from(sets.g0),
            g1: CharSet::from(sets.g1),
            g2: CharSet::from(sets.g2),
            g3: CharSet::from(sets.g3),
            gl: Register::from(sets.gl),
            gr: Register::from(sets.gr),
        }
    }
}

impl From<SavedRecord> for Saved {
    ghost from_gives = { λ r s. s ≡ records.saved_of r };

    fn from(saved: SavedRecord) -> Saved {
        Saved {
            cursor: Cursor::from(saved.cursor),
            rendition: Rendition::from(saved.rendition),
            origin: saved.origin == 1,
            sets: Sets::from(saved.sets),
            protected: saved.protected == 1,
            shift: SingleShift::from(saved.shift),
        }
    }
}

// Of two values, the record and the parameters' values, so it is no `From`.
pub fn parser_of(parser: ParserRecord, values: [u16; 16]) -> Parser
    ensures { result ≡ records.parser_of parser values }
{
    Parser {
        phase: Phase::from(parser.phase),
        mark: parser.mark,
        first: parser.first,
        second: parser.second,
        params: Params {
            separators: parser.separators,
            values,
        },
    }
}

// The core of a record, with a number of rows in the place of its own.
fn core_of(terminal: Terminal, rows: u8) -> Core
    ensures { result ≡ records.core_of terminal rows }
{
    let values = terminal.values;
    let flags = terminal.tabs;
    Core {
        rows,
        cursor: Cursor::from(terminal.cursor),
        margins: Margins {
            top: terminal.top,
            bottom: terminal.bottom,
        },
        tabs: Tabs { flags },
        modes: Modes::from(terminal.modes),
        rendition: Rendition::from(terminal.rendition),
        protected: terminal.protected == 1,
        sets: Sets::from(terminal.sets),
        shift: SingleShift::from(terminal.shift),
        saved: Saved::from(terminal.saved),
        parser: parser_of(terminal.parser, values),
    }
}

impl From<LineSavedRecord> for LineSaved {
    ghost from_gives = { λ r s. s ≡ records.line_saved_of r };

    fn from(saved: LineSavedRecord) -> LineSaved {
        LineSaved {
            column: saved.column,
            wrap: saved.wrap == 1,
            rendition: Rendition::from(saved.rendition),
            sets: Sets::from(saved.sets),
            protected: saved.protected == 1,
            shift: SingleShift::from(saved.shift),
        }
    }
}

impl From<StatusRecord> for StatusLine {
    ghost from_gives = { λ r s. s ≡ records.line_of r };

    fn from(status: StatusRecord) -> StatusLine {
        StatusLine {
            present: status.present == 1,
            active: status.active == 1,
            column: status.column,
            wrap: status.wrap == 1,
            saved: LineSaved::from(status.saved),
        }
    }
}

// ---- a record whose numbers all name something

fn rendition_named(rendition: RenditionRecord) -> bool
    ensures { result ≡ records.rendition_named rendition }
{
    (rendition.bold < 2)
        & (rendition.underline < 2)
        & (rendition.blink < 2)
        & (rendition.reverse < 2)
}

fn modes_named(modes: ModesRecord) -> bool
    ensures { result ≡ records.modes_named modes }
{
    (modes.insert < 2)
        & (modes.newline < 2)
        & (modes.origin < 2)
        & (modes.autowrap < 2)
        & (modes.shown < 2)
        & (modes.eightbit < 2)
        & (modes.rectangle < 2)
}

fn sets_named(sets: SetsRecord) -> bool
    ensures { result ≡ records.sets_named sets }
{
    (sets.g0 < 4) & (sets.g1 < 4) & (sets.g2 < 4) & (sets.g3 < 4) & (sets.gl < 4) & (sets.gr < 4)
}

fn saved_named(saved: SavedRecord) -> bool
    ensures { result ≡ records.saved_named saved }
{
    (saved.cursor.wrap < 2)
        & rendition_named(saved.rendition)
        & (saved.origin < 2)
        & sets_named(saved.sets)
        & (saved.protected < 2)
        & (saved.shift < 3)
}

fn line_saved_named(saved: LineSavedRecord) -> bool
    ensures { result ≡ records.line_saved_named saved }
{
    (saved.wrap < 2)
        & rendition_named(saved.rendition)
        & sets_named(saved.sets)
        & (saved.protected < 2)
        & (saved.shift < 3)
}

fn status_named(status: StatusRecord) -> bool
    ensures { result ≡ records.status_named status }
{
    (status.present < 2) & (status.active < 2) & (status.wrap < 2) & line_saved_named(status.saved)
}

pub fn named(terminal: Terminal) -> bool
    ensures { result ≡ records.named terminal }
{
    (terminal.protected < 2)
        & (terminal.shift < 3)
        & (terminal.cursor.wrap < 2)
        & (terminal.parser.phase < 11)
        & modes_named(terminal.modes)
        & rendition_named(terminal.rendition)
        & sets_named(terminal.sets)
        & saved_named(terminal.saved)
        & status_named(terminal.status)
        & (terminal.flag < 2)
}

// The state of a record, with a number of rows in the place of its own.
pub fn state_with(terminal: Terminal, rows: u8) -> State
    ensures { result ≡ records.state_with terminal rows }
{
    State {
        displays: Displays {
            core: core_of(terminal, rows),
            line: StatusLine::from(terminal.status),
        },
        tracked: Tracked {
            changed: terminal.changed,
            flag: terminal.flag == 1,
        },
    }
}

// A record with a number that names nothing is that of a terminal without rows, which is broken: no error, since the theorems
// of the calls speak of the state of any record.
pub fn state_of(terminal: Terminal) -> State
    ensures { result ≡ records.state_of terminal }
{
    state_with(terminal, pick(named(terminal), terminal.rows, 0))
}
