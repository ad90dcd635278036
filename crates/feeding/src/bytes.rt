// Bytes, one after the other, on page and line.
ghost use Rattle.std.specs.Prelude.{◌≡◌, ◌+◌, ◌<◌, ◌≤◌, not, length, if◌then◌else◌, ◌==◌};
ghost use Rattle.core_state.specs.Whole.{WholeDisplays};
ghost use Rattle.dispatch.specs.Replies.{reply_to};
ghost use Rattle.dispatch.specs.Displays.{active, line_edits};
ghost use Rattle.steps.specs.Steps.{buffers, edited_by};
ghost use Rattle.steps.specs.Ready.{Ready, state_from};
ghost use Rattle.feeding.specs.Bytes.{Answered, bytes_fed};

use crate::display::feed_display;
use cells::BLANK;
use core_state::status::{line_behind, line_beside, line_view, page_behind};
use core_state::{Core, Displays, StatusLine};
use device::sending::{Reply, reply_len, send};
use dispatch::displays::{leaves_line, resets_all, tell_line, tells_line};
use dispatch::events::{interruption, interrupts};
use dispatch::reply::reply_to;
use page::Edit;
use page::edits::apply;
use parser::parser::Action;
use steps::{State, Tracked};

// What a byte that may draw a reply or tell the line something asks for, and nothing of any other; and how many bytes are in the
// reply buffer.
#[derive(Clone, Copy)]
pub struct Heeded {
    pub action: Action,
    pub replied: usize,
}

// How many bytes of the input were read, how many were written to the reply buffer, and whether
// reading stopped before a reply that does not fit. No Result: the other fields count either way.
#[derive(Clone, Copy)]
pub struct FedBytes {
    pub state: State,
    pub read: usize,
    pub replied: usize,
    pub full: bool,
}

// The reply of the display that bytes act on.
fn active_reply(core: Core, line: StatusLine, action: Action) -> Option<Reply>
    requires { WholeDisplays (record { core = core; line = line }) }
    ensures { result ≡ reply_to (active (record { core = core; line = line })) action }
{
    if line.active {
        return reply_to(line_view(core, line), action);
    }
    reply_to(core, action)
}

// Before a byte is done: its reply is sent, or it does not fit.
fn heed(core: Core, line: StatusLine, byte: u8, reply: &mut [u8], replied: usize) -> Option<Heeded>
    requires { WholeDisplays (record { core = core; line = line }) × (replied ≤ length reply.old) }
    ensures { Answered (record { core = core; line = line }) byte reply.old replied result reply.new }
{
    if !interrupts(core.parser.phase, byte) {
        return Some(Heeded {
            action: Action::Nothing,
            replied,
        });
    }
    let action = interruption(core.parser, byte);
    let eightbit = core.modes.eightbit;
    let kind = active_reply(core, line, action);
    if reply.len() - replied < reply_len(eightbit, kind) {
        return None;
    }
    Some(Heeded {
        action,
        replied: send(eightbit, kind, reply, replied),
    })
}

// RIS blanks the line with the page. Whether that changed it.
fn blank_line(action: Action, cells: &mut [u16]) -> bool
    requires { length cells.old ≡ 80 }
    ensures { (cells.new ≡ (edited_by 1 (line_edits action) cells.old).page)
        × (result ≡ not ((edited_by 1 (line_edits action) cells.old).changed == 0)) }
{
    let whole = Edit::FillRange {
        from: 0,
        to: 80,
        word: BLANK,
    };
    resets_all(action) && apply(whole, cells, 1, 0) != 0
}

// Where a turn ends: after one byte, or with the input.
fn turn_end(alone: bool, from: usize, len: usize) -> usize
    requires { from < len }
    ensures { result ≡ (if alone then from + 1 else len) }
{
    if alone { from + 1 } else { len }
}

fn ended(
    core: Core,
    line: StatusLine,
    tracked: Tracked,
    read: usize,
    replied: usize,
    full: bool,
) -> FedBytes
    ensures { result ≡ record { state = state_from core line tracked; read = read; replied = replied; full = full } }
{
    FedBytes {
        state: State {
            displays: Displays { core, line },
            tracked,
        },
        read,
        replied,
        full,
    }
}

// The bytes of the input, until one's reply does not fit: one that acts on the line or tells it something, or as many as go
// on the page at once. A while, since a turn is as long as its run. Core, line and what is tracked are kept apart: in one state
// they cost a call up to 11 % more.
pub fn feed_bytes(
    state: State,
    page: &mut [u16],
    cells: &mut [u16],
    input: &[u8],
    reply: &mut [u8],
) -> FedBytes
    requires { Ready state page.old × (length cells.old ≡ 80) }
    ensures { record { result = result; buffers = buffers page.new cells.new; reply = reply.new }
        ≡ bytes_fed state (buffers page.old cells.old) input.now reply.old }
{
    let mut core = state.displays.core;
    let mut line = state.displays.line;
    let mut tracked = state.tracked;
    let mut read = 0;
    let mut replied = 0;
    while read < input.len() {
        let Some(heeded) = heed(core, line, input[read], reply, replied) else {
            return ended(core, line, tracked, read, replied, true);
        };
        replied = heeded.replied;
        let action = heeded.action;
        let selector = core.parser.params.get(0);
        if line.active & !leaves_line(action) {
            let run = feed_display(line_view(core, line), 0, cells, &input[read..read + 1]);
            core = page_behind(core, run.core);
            line = tell_line(line_behind(line, run.core), action, selector);
            tracked.flag |= run.changed != 0;
            read += 1;
        } else {
            let end = turn_end(tells_line(action), read, input.len());
            let run = feed_display(core, tracked.changed, page, &input[read..end]);
            core = run.core;
            line = tell_line(line_beside(line, run.lasting), action, selector);
            tracked.changed = run.changed;
            tracked.flag |= blank_line(action, cells);
            read += run.read;
        }
    }
    ended(core, line, tracked, read, replied, false)
}
