// Reading a row: the part of whichever display is active that holds it.
ghost use Rattle.std.specs.Prelude.{◌≡◌, if◌then◌else◌};
ghost use Rattle.steps.specs.Steps.{buffers};
ghost use Rattle.terminal.specs.Row.{active_rows, row_told, row_read};

use crate::whole::check;
use crate::{Refusal, Refused};
use cells::rows::row_of;
use steps::State;

// How many rows the active display has.
fn active_rows(state: State) -> usize
    ensures { result ≡ active_rows state }
{
    if state.displays.line.active {
        return 1;
    }
    state.displays.core.rows as usize
}

// The cells of the active display.
fn active<'a>(second: bool, page: &'a [u16], line: &'a [u16]) -> &'a [u16]
    ensures { result.now ≡ (if second then line.now else page.now) }
{
    if second {
        return line;
    }
    page
}

// Reads a row of the active display, counted from 1: its 80 cells, where they lie in page or line.
pub fn row<'a>(
    state: State,
    page: &'a [u16],
    line: &'a [u16],
    row: usize,
) -> Result<&'a [u16], Refused<&'a [u16]>>
    ensures { row_told result ≡ row_read state (buffers page.now line.now) row }
{
    let cells = active(state.displays.line.active, page, line);
    let none = &cells[..0];
    check(state, page, line).map_err(|refusal| Refused {
        refusal,
        returned: none,
    })?;
    if (1 <= row) & (row <= active_rows(state)) {
        Ok(row_of(cells, row - 1))
    } else {
        Err(Refused {
            refusal: Refusal::OffPage,
            returned: none,
        })
    }
}
