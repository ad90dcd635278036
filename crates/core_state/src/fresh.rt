// The fresh state.
ghost use Rattle.std.specs.Prelude.{◌≡◌};
ghost use Rattle.cells.specs.Cells.{plain};
ghost use Rattle.device.specs.Tabs.{every_eighth};
ghost use Rattle.device.specs.Cursor.{place};
ghost use Rattle.core_state.specs.Fresh.{fresh_modes, fresh_saved, fresh_core};

use crate::{Core, Margins, Modes, Saved};
use cells::Rendition;
use device::charsets::{Sets, SingleShift};
use device::cursor::Cursor;
use device::tabs::Tabs;
use parser::parser::Parser;
use parser::phases::Phase;

// Row 1, column 1.
pub fn fresh_cursor() -> Cursor
    ensures { result ≡ place 1 1 }
{
    Cursor {
        row: 1,
        column: 1,
        wrap: false,
    }
}

// All attributes off.
pub fn plain_rendition() -> Rendition
    ensures { result ≡ plain }
{
    Rendition::default()
}

// Off, but the cursor is shown.
pub fn fresh_modes() -> Modes
    ensures { result ≡ fresh_modes }
{
    Modes {
        shown: true,
        ..Modes::default()
    }
}

// Tabs at 9, 17 and so on to 73.
fn fresh_tabs() -> Tabs
    ensures { result ≡ every_eighth }
{
    Tabs {
        flags: [0, 1, 1, 1, 1, 1, 1, 1, 1, 1],
    }
}

pub fn fresh_saved() -> Saved
    ensures { result ≡ fresh_saved }
{
    Saved {
        cursor: fresh_cursor(),
        rendition: plain_rendition(),
        origin: false,
        sets: Sets::fresh(),
        protected: false,
        shift: SingleShift::NoShift,
    }
}

// Never inlined: resets are rare, and in the loop over bytes its fields cost each byte a few instructions.
#[inline(never)]
#[tactic(auto, unfolding(crate::specs::Fresh::fresh_core))]
pub fn fresh_core(rows: u8) -> Core
    ensures { result ≡ fresh_core rows }
{
    Core {
        rows,
        cursor: fresh_cursor(),
        margins: Margins {
            top: 1,
            bottom: rows,
        },
        tabs: fresh_tabs(),
        modes: fresh_modes(),
        rendition: plain_rendition(),
        protected: false,
        sets: Sets::fresh(),
        shift: SingleShift::NoShift,
        saved: fresh_saved(),
        parser: Parser::cleared(Phase::Ground),
    }
}
