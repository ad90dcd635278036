// What the gateway calls. None of these asks that anything was checked before, and a refusal leaves all that was lent.
ghost use Rattle.std.specs.Prelude.{◌≡◌, false, IfErr};
ghost use Rattle.cells.specs.Cells.{blank};
ghost use Rattle.steps.specs.Steps.{buffers};
ghost use Rattle.terminal.specs.Start as starting;
ghost use Rattle.terminal.specs.Feed.{feed_told, fed, Taken};
ghost use Rattle.terminal.specs.Ask.{ask_told, asked};
ghost use Rattle.terminal.specs.Read.{page_answer, read_gives, read_told, cell_read};
ghost use Rattle.terminal.specs.CursorRead.{cursor_told, cursor_read};

use crate::whole::{check, check_sizes, check_whole};
use crate::{Asked, CursorRead, Refusal, Refused};
use cells::BLANK;
use cells::marks::count_rows;
use core_state::Displays;
use core_state::fresh::fresh_core;
use core_state::status::fresh_line;
use feeding::bytes::{FedBytes, feed_bytes};
use page::edits::clear;
use steps::{State, Tracked};

// The state that a start of so many rows gives.
pub fn fresh(rows: u8) -> State
    ensures { result ≡ starting.fresh rows }
{
    State {
        displays: Displays {
            core: fresh_core(rows),
            line: fresh_line(),
        },
        tracked: Tracked {
            changed: 0,
            flag: false,
        },
    }
}

// The fresh state of 24 rows is returned.
fn not_started(refusal: Refusal) -> Refused<State>
    ensures { result ≡ record { refusal = refusal; returned = starting.fresh 24 } }
{
    Refused {
        refusal,
        returned: fresh(24),
    }
}

// Starts a page of 24, 36 or 48 rows: every cell of page and line blank, the state fresh.
pub fn start(rows: usize, page: &mut [u16], line: &mut [u16]) -> Result<State, Refused<State>>
    ensures { starting.start_told result (buffers page.new line.new)
        ≡ starting.started rows (buffers page.old line.old) }
{
    // (`is_sized` takes a u8: with it the conversion, which can fail, would need a refusal of its own.)
    if !matches!(rows, 24 | 36 | 48) {
        return Err(not_started(Refusal::Broken));
    }
    let rows = rows as u8;
    check_sizes(rows, page, line).map_err(not_started)?;
    clear(page);
    clear(line);
    Ok(fresh(rows))
}

// Feeds a whole state, with page and line of its size.
pub fn feed_whole(
    state: State,
    page: &mut [u16],
    line: &mut [u16],
    input: &[u8],
    reply: &mut [u8],
) -> FedBytes
    requires { Taken state (buffers page.old line.old) }
    ensures { feed_told (Ok result) (buffers page.new line.new) reply.new
        ≡ fed state (buffers page.old line.old) input.now reply.old }
{
    feed_bytes(state, page, line, input, reply)
}

// Feeds bytes from the modem, until the input ends or a reply does not fit. (Not inlined: a caller's loop over calls would
// hold all of it.)
#[inline(never)]
pub fn feed(
    state: State,
    page: &mut [u16],
    line: &mut [u16],
    input: &[u8],
    reply: &mut [u8],
) -> Result<FedBytes, Refused<FedBytes>>
    ensures told { feed_told result (buffers page.new line.new) reply.new
        ≡ fed state (buffers page.old line.old) input.now reply.old }
    ensures unstopped { IfErr result (λ refused. refused.returned.full ≡ false) }
{
    // (No `map_err`, whose closure would copy the state of each call.)
    if let Err(refusal) = check(state, page, line) {
        return Err(Refused {
            refusal,
            returned: FedBytes {
                read: 0,
                replied: 0,
                full: false,
                state,
            },
        });
    }
    Ok(feed_whole(state, page, line, input, reply))
}

// Asks for the changed rows and the line's flag, empties the set and clears the flag.
pub fn ask(state: State) -> Result<Asked, Refused<Asked>>
    ensures { ask_told result ≡ asked state }
{
    if let Err(refusal) = check_whole(state) {
        return Err(Refused {
            refusal,
            returned: Asked {
                rows: 0,
                count: 0,
                flag: false,
                state,
            },
        });
    }
    let changed = state.tracked.changed;
    Ok(Asked {
        rows: changed,
        count: count_rows(changed),
        flag: state.tracked.flag,
        state: State {
            displays: state.displays,
            tracked: Tracked {
                changed: 0,
                flag: false,
            },
        },
    })
}

// A blank one is returned.
fn no_cell(refusal: Refusal) -> Refused<u16>
    ensures { result ≡ record { refusal = refusal; returned = blank } }
{
    Refused {
        refusal,
        returned: BLANK,
    }
}

// Reads a cell of a page of so many rows.
pub fn read_cell(rows: u8, page: &[u16], row: usize, column: usize) -> Result<u16, Refused<u16>>
    ensures { read_told result ≡ read_gives (page_answer rows page.now row column) page.now row column }
{
    let rows = rows as usize;
    if page.len() != 80 * rows {
        return Err(no_cell(Refusal::WrongSize));
    }
    if (1 <= row) & (row <= rows) & ((1 <= column) & (column <= 80)) {
        let at = 80 * (row - 1) + (column - 1);
        Ok(page[at])
    } else {
        Err(no_cell(Refusal::OffPage))
    }
}

// Reads a cell of the page by its row and column, counted from 1.
pub fn read(state: State, page: &[u16], row: usize, column: usize) -> Result<u16, Refused<u16>>
    ensures { read_told result ≡ cell_read state page.now row column }
{
    check_whole(state).map_err(no_cell)?;
    read_cell(state.displays.core.rows, page, row, column)
}

// Reads the page's cursor: its row and column, counted from 1, whatever origin mode says.
pub fn cursor(state: State) -> Result<CursorRead, Refused<CursorRead>>
    ensures { cursor_told result ≡ cursor_read state }
{
    check_whole(state).map_err(|refusal| Refused {
        refusal,
        returned: CursorRead {
            row: 0,
            column: 0,
            wrap: false,
            shown: false,
        },
    })?;
    let cursor = state.displays.core.cursor;
    Ok(CursorRead {
        row: cursor.row,
        column: cursor.column,
        wrap: cursor.wrap,
        shown: state.displays.core.modes.shown,
    })
}
