// The record of a state.
ghost use Rattle.std.specs.Prelude.{◌≡◌};
ghost use Rattle.record.specs.Record as records;

use crate::{
    CursorRecord, LineSavedRecord, ModesRecord, ParserRecord, RenditionRecord, SavedRecord,
    SetsRecord, StatusRecord, Terminal,
};
use cells::Rendition;
use core_state::{LineSaved, Modes, Saved, StatusLine};
use device::charsets::Sets;
use device::cursor::Cursor;
use parser::parser::Parser;
use steps::State;

impl From<Cursor> for CursorRecord {
    ghost from_gives = { λ s r. r ≡ records.cursor_record s };

    fn from(cursor: Cursor) -> CursorRecord {
        CursorRecord {
            row: cursor.row,
            column: cursor.column,
            wrap: u8::from(cursor.wrap),
        }
    }
}

impl From<Modes> for ModesRecord {
    ghost from_gives = { λ s r. r ≡ records.modes_record s };

    fn from(modes: Modes) -> ModesRecord {
        ModesRecord {
            insert: u8::from(modes.insert),
            newline: u8::from(modes.newline),
            origin: u8::from(modes.origin),
            autowrap: u8::from(modes.autowrap),
            shown: u8::from(modes.shown),
            eightbit: u8::from(modes.eightbit),
            rectangle: u8::from(modes.rectangle),
        }
    }
}

impl From<Rendition> for RenditionRecord {
    ghost from_gives = { λ s r. r ≡ records.rendition_record s };

    fn from(rendition: Rendition) -> RenditionRecord {
        RenditionRecord {
            bold: u8::from(rendition.bold),
            underline: u8::from(rendition.underline),
            blink: u8::from(rendition.blink),
            reverse: u8::from(rendition.reverse),
        }
    }
}

impl From<Sets> for SetsRecord {
    ghost from_gives = { λ s r. r ≡ records.sets_record s };

    fn from(sets: Sets) -> SetsRecord {
        SetsRecord {
            g0: u8::from(sets.g0),
            g1: u8::from(sets.g1),
            g2: u8::from(sets.g2),
            g3: u8::from(sets.g3),
            gl: u8::from(sets.gl),
            gr: u8::from(sets.gr),
        }
    }
}

impl From<Saved> for SavedRecord {
    ghost from_gives = { λ s r. r ≡ records.saved_record s };

    fn from(saved: Saved) -> SavedRecord {
        SavedRecord {
            cursor: CursorRecord::from(saved.cursor),
            rendition: RenditionRecord::from(saved.rendition),
            origin: u8::from(saved.origin),
            sets: SetsRecord::from(saved.sets),
            protected: u8::from(saved.protected),
            shift: u8::from(saved.shift),
        }
    }
}

impl From<Parser> for ParserRecord {
    ghost from_gives = { λ s r. r ≡ records.parser_record s };

    fn from(parser: Parser) -> ParserRecord {
        ParserRecord {
            phase: u8::from(parser.phase),
            mark: parser.mark,
            first: parser.first,
            second: parser.second,
            separators: parser.params.separators,
        }
    }
}

impl From<LineSaved> for LineSavedRecord {
    ghost from_gives = { λ s r. r ≡ records.line_saved_record s };

    fn from(saved: LineSaved) -> LineSavedRecord {
        LineSavedRecord {
            column: saved.column,
            wrap: u8::from(saved.wrap),
            rendition: RenditionRecord::from(saved.rendition),
            sets: SetsRecord::from(saved.sets),
            protected: u8::from(saved.protected),
            shift: u8::from(saved.shift),
        }
    }
}

impl From<StatusLine> for StatusRecord {
    ghost from_gives = { λ s r. r ≡ records.status_record s };

    fn from(line: StatusLine) -> StatusRecord {
        StatusRecord {
            present: u8::from(line.present),
            active: u8::from(line.active),
            column: line.column,
            wrap: u8::from(line.wrap),
            saved: LineSavedRecord::from(line.saved),
        }
    }
}

pub fn record_of(state: State) -> Terminal
    ensures { result ≡ records.record_of state }
{
    let core = state.displays.core;
    let values = core.parser.params.values;
    let tabs = core.tabs.flags;
    Terminal {
        changed: state.tracked.changed,
        values,
        tabs,
        rows: core.rows,
        top: core.margins.top,
        bottom: core.margins.bottom,
        protected: u8::from(core.protected),
        shift: u8::from(core.shift),
        cursor: CursorRecord::from(core.cursor),
        modes: ModesRecord::from(core.modes),
        rendition: RenditionRecord::from(core.rendition),
        sets: SetsRecord::from(core.sets),
        saved: SavedRecord::from(core.saved),
        parser: ParserRecord::from(core.parser),
        status: StatusRecord::from(state.displays.line),
        flag: u8::from(state.tracked.flag),
        unused: [0u8; 5],
    }
}

// What asking leaves of a record: no row changed, and the line's flag off.
pub fn emptied(mut terminal: Terminal) -> Terminal
    ensures { result ≡ records.emptied terminal }
{
    terminal.changed = 0;
    terminal.flag = 0;
    terminal.unused = [0u8; 5];
    terminal
}
