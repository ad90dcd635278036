// The calls on a record that is passed by value: what a feeding or an asking leaves of it is returned.
ghost use Rattle.std.specs.Prelude.{◌≡◌};
ghost use Rattle.steps.specs.Steps.{buffers};
ghost use Rattle.terminal.specs.Answers.{whole_checked};
ghost use Rattle.terminal.specs.Feed.{fed};
ghost use Rattle.terminal.specs.Ask.{asked};
ghost use Rattle.terminal.specs.Read.{read_told, cell_read};
ghost use Rattle.terminal.specs.CursorRead.{cursor_told, cursor_read};
ghost use Rattle.record.specs.Record.{state_of, state_with};
ghost use Rattle.pankholim.specs.Leaves as leaving;

use cells::marks::count_rows;
use inplace::parsing::{steered, steers};
use inplace::{moved, put_in_place, takes};
use record::Terminal;
use record::from_state::{emptied, record_of};
use record::plain::is_plain;
use record::to_state::{named, state_of, state_with};
use steps::State;
use terminal::whole::check_whole;
use terminal::{CursorRead, Refusal, Refused, calls};

// The record that a feeding leaves, how many bytes of the input were read, how many were written to the reply buffer, and
// whether reading stopped before a reply that does not fit.
#[derive(Clone, Copy)]
pub struct Fed {
    pub terminal: Terminal,
    pub read: usize,
    pub replied: usize,
    pub full: bool,
}

// The record that an asking leaves, the changed rows, how many they are, and the line's flag.
#[derive(Clone, Copy)]
pub struct Asked {
    pub terminal: Terminal,
    pub rows: u64,
    pub count: u32,
    pub flag: u8,
}

// Refused unless the record is that of a whole state, where `state` has all its numbers.
fn check_record(terminal: Terminal, state: State) -> Result<(), Refusal>
    requires { state ≡ state_with terminal terminal.rows }
    ensures { result ≡ whole_checked (state_of terminal) }
{
    if !named(terminal) {
        return Err(Refusal::Broken);
    }
    check_whole(state)
}

// A plain record is whole, and takes a few characters in place, or a byte that only moves the parser; of any other its state tells. The last record is made by a callee:
// made here, the compiler would join its sixty fields with those of the one that is moved.
pub fn feed(
    terminal: Terminal,
    page: &mut [u16],
    line: &mut [u16],
    input: &[u8],
    reply: &mut [u8],
) -> Result<Fed, Refusal>
    ensures { leaving.FeedGives terminal
        (fed (state_of terminal) (buffers page.old line.old) input.now reply.old)
        result (buffers page.new line.new) reply.new }
{
    let rows = terminal.rows as usize;
    let right = (page.len() == 80 * rows) & (line.len() == 80);
    let plain = is_plain(terminal);
    if plain & right {
        if takes(terminal, input) {
            let changed = put_in_place(terminal, page, input);
            return Ok(Fed {
                terminal: moved(terminal, input.len(), changed),
                read: input.len(),
                replied: 0,
                full: false,
            });
        }
        if steers(terminal, input) {
            return Ok(Fed {
                terminal: steered(terminal, input),
                read: input.len(),
                replied: 0,
                full: false,
            });
        }
    }
    let state = state_with(terminal, terminal.rows);
    if !plain {
        check_record(terminal, state)?;
    }
    if !right {
        return Err(Refusal::WrongSize);
    }
    let done = calls::feed_whole(state, page, line, input, reply);
    Ok(Fed {
        terminal: record_of(done.state),
        read: done.read,
        replied: done.replied,
        full: done.full,
    })
}

// A plain record is asked and emptied as it lies.
pub fn ask(terminal: Terminal) -> Result<Asked, Refusal>
    ensures { leaving.AskGives terminal (asked (state_of terminal)) result }
{
    if is_plain(terminal) {
        return Ok(Asked {
            terminal: emptied(terminal),
            rows: terminal.changed,
            count: count_rows(terminal.changed),
            flag: terminal.flag,
        });
    }
    match calls::ask(state_of(terminal)) {
        Ok(asked) => Ok(Asked {
            terminal: record_of(asked.state),
            rows: asked.rows,
            count: asked.count,
            flag: u8::from(asked.flag),
        }),
        Err(refused) => Err(refused.refusal),
    }
}

// Of a plain record the rows are known.
pub fn read(
    terminal: Terminal,
    page: &[u16],
    row: usize,
    column: usize,
) -> Result<u16, Refused<u16>>
    ensures { read_told result ≡ cell_read (state_of terminal) page.now row column }
{
    if is_plain(terminal) {
        return calls::read_cell(terminal.rows, page, row, column);
    }
    calls::read(state_of(terminal), page, row, column)
}

// A plain record is told of as it lies.
pub fn cursor(terminal: Terminal) -> Result<CursorRead, Refused<CursorRead>>
    ensures { cursor_told result ≡ cursor_read (state_of terminal) }
{
    if is_plain(terminal) {
        return Ok(CursorRead {
            row: terminal.cursor.row,
            column: terminal.cursor.column,
            wrap: terminal.cursor.wrap == 1,
            shown: terminal.modes.shown == 1,
        });
    }
    calls::cursor(state_of(terminal))
}
