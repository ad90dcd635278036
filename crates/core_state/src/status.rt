// The host-writable status line, as a page of one row that bytes act on.
ghost use Rattle.std.specs.Prelude.{◌≡◌};
ghost use Rattle.core_state.specs.StatusLine as status;

use crate::fresh::fresh_saved;
use crate::{Core, LineSaved, Margins, Modes, Saved, StatusLine};
use device::cursor::Cursor;

// Whether the page is the line.
pub fn is_line(core: Core) -> bool
    ensures { result ≡ status.is_line core }
{
    core.rows == 1
}

fn in_line(column: u8, wrap: bool) -> Cursor
    ensures { result ≡ status.in_line column wrap }
{
    Cursor {
        row: 1,
        column,
        wrap,
    }
}

// What is saved of the line, as a page of one row has it.
// (It and its inverse are no `From`, since the way back drops row and origin.)
fn line_saved(saved: LineSaved) -> Saved
    ensures { result ≡ status.line_saved saved }
{
    Saved {
        cursor: in_line(saved.column, saved.wrap),
        rendition: saved.rendition,
        origin: false,
        sets: saved.sets,
        protected: saved.protected,
        shift: saved.shift,
    }
}

// And back.
fn saved_line(saved: Saved) -> LineSaved
    ensures { result ≡ status.saved_line saved }
{
    LineSaved {
        column: saved.cursor.column,
        wrap: saved.cursor.wrap,
        rendition: saved.rendition,
        sets: saved.sets,
        protected: saved.protected,
        shift: saved.shift,
    }
}

// The line as a page of one row: margins and origin are set aside, the rest is shared.
#[tactic(auto, unfolding(crate::specs::StatusLine::line_view))]
pub fn line_view(core: Core, line: StatusLine) -> Core
    ensures { result ≡ status.line_view core line }
{
    Core {
        rows: 1,
        cursor: in_line(line.column, line.wrap),
        margins: Margins { top: 1, bottom: 1 },
        modes: Modes {
            origin: false,
            ..core.modes
        },
        saved: line_saved(line.saved),
        ..core
    }
}

// The page's core after an action on the line, which left the view so.
#[tactic(auto, unfolding(crate::specs::StatusLine::page_behind))]
pub fn page_behind(core: Core, view: Core) -> Core
    ensures { result ≡ status.page_behind core view }
{
    Core {
        rows: core.rows,
        cursor: Cursor {
            wrap: core.cursor.wrap & view.modes.autowrap,
            ..core.cursor
        },
        margins: core.margins,
        modes: Modes {
            origin: core.modes.origin,
            ..view.modes
        },
        saved: core.saved,
        ..view
    }
}

// The line after an action on it.
pub fn line_behind(line: StatusLine, view: Core) -> StatusLine
    ensures { result ≡ status.line_behind line view }
{
    StatusLine {
        column: view.cursor.column,
        wrap: view.cursor.wrap,
        saved: saved_line(view.saved),
        ..line
    }
}

// The line after an action on the page: a wrap due lasts while autowrap is on.
pub fn line_beside(mut line: StatusLine, autowrap: bool) -> StatusLine
    ensures { result ≡ status.line_beside line autowrap }
{
    line.wrap &= autowrap;
    line
}

// No line, its cursor in column 1.
pub fn fresh_line() -> StatusLine
    ensures { result ≡ status.fresh_line }
{
    StatusLine {
        present: false,
        active: false,
        column: 1,
        wrap: false,
        saved: saved_line(fresh_saved()),
    }
}
