// The terminal for C: one record per modem, changed where it lies. Answers are numbers and results go through parameters:
// the C interface (specs/Leaves.antt).
#![tactic(auto)]

mod by_value;

ghost use Rattle.std.specs.Prelude.{◌≡◌, length};
ghost use Rattle.steps.specs.Steps.{buffers};
ghost use Rattle.terminal.specs.Start.{started};
ghost use Rattle.terminal.specs.Feed.{fed};
ghost use Rattle.terminal.specs.Ask.{asked};
ghost use Rattle.terminal.specs.Read.{cell_read};
ghost use Rattle.terminal.specs.Row.{row_read};
ghost use Rattle.terminal.specs.CursorRead.{cursor_read};
ghost use Rattle.text.specs.Text.{page_text};
ghost use Rattle.record.specs.Record.{state_of};
ghost use Rattle.pankholim.specs.Leaves.{StartLeaves, FeedLeaves, AskLeaves, ReadLeaves, RowLeaves, CursorLeaves, WriteLeaves};
ghost use Rattle.pankholim.specs.Version.{version};

use record::Terminal;
use record::from_state::record_of;
use record::to_state::state_of;
use terminal::answers::{DONE, NO_ROOM, fitting, number, returned};
use terminal::{calls, rows};
use text::{text_len, write_text};

const MAJOR: u32 = 0;

const MINOR: u32 = 5;

const PATCH: u32 = 0;

// The library's version, as one number.
pub fn pankholim_version() -> u32
    ensures { result ≡ version }
{
    MAJOR * 65536 + MINOR * 256 + PATCH
}

// Starts a terminal of 24, 36 or 48 rows: every cell of page and line blank, the record fresh, whatever it was. Refused, it
// leaves all three.
pub fn pankholim_start(
    terminal: &mut Terminal,
    rows: usize,
    page: &mut [u16],
    line: &mut [u16],
) -> u8
    ensures { StartLeaves terminal.old (started rows (buffers page.old line.old))
        result terminal.new (buffers page.new line.new) }
{
    match calls::start(rows, page, line) {
        Ok(state) => {
            *terminal = record_of(state);
            DONE
        }
        Err(refused) => refused.refusal.into(),
    }
}

// Feeds bytes from the modem, until the input ends or a reply does not fit.
pub fn pankholim_feed(
    terminal: &mut Terminal,
    page: &mut [u16],
    line: &mut [u16],
    input: &[u8],
    reply: &mut [u8],
    read: &mut usize,
    replied: &mut usize,
) -> u8
    ensures { FeedLeaves terminal.old
        (fed (state_of terminal.old) (buffers page.old line.old) input.now reply.old)
        result terminal.new (buffers page.new line.new) reply.new read.new replied.new }
{
    match by_value::feed(*terminal, page, line, input, reply) {
        Ok(fed) => {
            *terminal = fed.terminal;
            *read = fed.read;
            *replied = fed.replied;
            fitting(fed.full)
        }
        Err(refusal) => {
            *read = 0;
            *replied = 0;
            refusal.into()
        }
    }
}

// Asks for the changed rows, and whether the line changed; empties the set and clears the line's flag.
pub fn pankholim_ask(
    terminal: &mut Terminal,
    changed: &mut u64,
    count: &mut u32,
    flag: &mut u8,
) -> u8
    ensures { AskLeaves terminal.old (asked (state_of terminal.old))
        result terminal.new changed.new count.new flag.new }
{
    match by_value::ask(*terminal) {
        Ok(asked) => {
            *terminal = asked.terminal;
            *changed = asked.rows;
            *count = asked.count;
            *flag = asked.flag;
            DONE
        }
        Err(refusal) => {
            *changed = 0;
            *count = 0;
            *flag = 0;
            refusal.into()
        }
    }
}

// Reads a cell of the page by its row and column, counted from 1.
pub fn pankholim_read(
    terminal: &Terminal,
    page: &[u16],
    row: usize,
    column: usize,
    word: &mut u16,
) -> u8
    ensures { ReadLeaves (cell_read (state_of terminal.now) page.now row column) result word.new }
{
    let read = by_value::read(*terminal, page, row, column);
    *word = returned(read);
    number(read)
}

// Reads a row of the active display, counted from 1: `part` is its 80 cells, where they lie in page or line, or none where
// the call is refused. The record goes by value (docs/DECISIONS.md).
pub fn pankholim_row<'a>(
    terminal: Terminal,
    page: &'a [u16],
    line: &'a [u16],
    row: usize,
    part: &mut &'a [u16],
) -> u8
    ensures { RowLeaves (row_read (state_of terminal) (buffers page.now line.now) row) result part.new.now }
{
    let cells = rows::row(state_of(terminal), page, line, row);
    *part = returned(cells);
    number(cells)
}

// Reads the page's cursor: its row and column, counted from 1, whatever origin mode says, whether a
// wrap is due, and whether it is shown.
pub fn pankholim_cursor(
    terminal: &Terminal,
    row: &mut usize,
    column: &mut usize,
    wrap: &mut u8,
    shown: &mut u8,
) -> u8
    ensures { CursorLeaves (cursor_read (state_of terminal.now))
        result row.new column.new wrap.new shown.new }
{
    let read = by_value::cursor(*terminal);
    let cursor = returned(read);
    *row = cursor.row as usize;
    *column = cursor.column as usize;
    *wrap = u8::from(cursor.wrap);
    *shown = u8::from(cursor.shown);
    number(read)
}

// How many bytes the text of a page takes.
pub fn pankholim_text_len(page: &[u16]) -> usize
    ensures { result ≡ length (page_text page.now) }
{
    text_len(page)
}

// Writes the text of a page at the front of a buffer, whole or not at all. `len` is the bytes that it
// takes, also where the buffer is too small.
pub fn pankholim_write_text(page: &[u16], out: &mut [u8], len: &mut usize) -> u8
    ensures { WriteLeaves page.now out.old result out.new len.new }
{
    match write_text(page, out) {
        Ok(n) => {
            *len = n;
            DONE
        }
        Err(_) => {
            *len = text_len(page);
            NO_ROOM
        }
    }
}
