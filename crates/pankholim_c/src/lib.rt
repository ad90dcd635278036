// The library for C: each function calls that of crate pankholim, and promises the same.
#![tactic(auto)]

ghost use Rattle.std.specs.Prelude.{◌≡◌, length};
ghost use Rattle.steps.specs.Steps.{buffers};
ghost use Rattle.terminal.specs.Start.{started};
ghost use Rattle.terminal.specs.Feed.{fed};
ghost use Rattle.terminal.specs.Ask.{asked};
ghost use Rattle.terminal.specs.Read.{cell_read};
ghost use Rattle.terminal.specs.Row.{row_read};
ghost use Rattle.terminal.specs.CursorRead.{cursor_read};
ghost use Rattle.text.specs.Text.{page_text};
ghost use Rattle.record.specs.Record.{state_of};
ghost use Rattle.pankholim.specs.Leaves.{StartLeaves, FeedLeaves, AskLeaves, ReadLeaves, RowLeaves, CursorLeaves, WriteLeaves};
ghost use Rattle.pankholim.specs.Version.{version};

use record::Terminal;

#[unsafe(no_mangle)]
pub extern "C" fn pankholim_version() -> u32
    ensures { result ≡ version }
{
    pankholim::pankholim_version()
}

#[unsafe(no_mangle)]
pub extern "C" fn pankholim_start(
    terminal: &mut Terminal,
    rows: usize,
    page: &mut [u16],
    line: &mut [u16],
) -> u8
    ensures { StartLeaves terminal.old (started rows (buffers page.old line.old))
        result terminal.new (buffers page.new line.new) }
{
    pankholim::pankholim_start(terminal, rows, page, line)
}

#[unsafe(no_mangle)]
pub extern "C" fn pankholim_feed(
    terminal: &mut Terminal,
    page: &mut [u16],
    line: &mut [u16],
    input: &[u8],
    reply: &mut [u8],
    read: &mut usize,
    replied: &mut usize,
) -> u8
    ensures { FeedLeaves terminal.old
        (fed (state_of terminal.old) (buffers page.old line.old) input.now reply.old)
        result terminal.new (buffers page.new line.new) reply.new read.new replied.new }
{
    pankholim::pankholim_feed(terminal, page, line, input, reply, read, replied)
}

#[unsafe(no_mangle)]
pub extern "C" fn pankholim_ask(
    terminal: &mut Terminal,
    changed: &mut u64,
    count: &mut u32,
    flag: &mut u8,
) -> u8
    ensures { AskLeaves terminal.old (asked (state_of terminal.old))
        result terminal.new changed.new count.new flag.new }
{
    pankholim::pankholim_ask(terminal, changed, count, flag)
}

#[unsafe(no_mangle)]
pub extern "C" fn pankholim_read(
    terminal: &Terminal,
    page: &[u16],
    row: usize,
    column: usize,
    word: &mut u16,
) -> u8
    ensures { ReadLeaves (cell_read (state_of terminal.now) page.now row column) result word.new }
{
    pankholim::pankholim_read(terminal, page, row, column, word)
}

#[unsafe(no_mangle)]
pub extern "C" fn pankholim_row<'a>(
    terminal: Terminal,
    page: &'a [u16],
    line: &'a [u16],
    row: usize,
    part: &mut &'a [u16],
) -> u8
    ensures { RowLeaves (row_read (state_of terminal) (buffers page.now line.now) row) result part.new.now }
{
    pankholim::pankholim_row(terminal, page, line, row, part)
}

#[unsafe(no_mangle)]
pub extern "C" fn pankholim_cursor(
    terminal: &Terminal,
    row: &mut usize,
    column: &mut usize,
    wrap: &mut u8,
    shown: &mut u8,
) -> u8
    ensures { CursorLeaves (cursor_read (state_of terminal.now))
        result row.new column.new wrap.new shown.new }
{
    pankholim::pankholim_cursor(terminal, row, column, wrap, shown)
}

#[unsafe(no_mangle)]
pub extern "C" fn pankholim_text_len(page: &[u16]) -> usize
    ensures { result ≡ length (page_text page.now) }
{
    pankholim::pankholim_text_len(page)
}

#[unsafe(no_mangle)]
pub extern "C" fn pankholim_write_text(page: &[u16], out: &mut [u8], len: &mut usize) -> u8
    ensures { WriteLeaves page.now out.old result out.new len.new }
{
    pankholim::pankholim_write_text(page, out, len)
}
