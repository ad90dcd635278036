// Whole states, and pages of their size.
ghost use Rattle.std.specs.Prelude.{◌≡◌};
ghost use Rattle.steps.specs.Steps.{buffers};
ghost use Rattle.steps.specs.Whole.{whole_state};
ghost use Rattle.terminal.specs.Answers.{whole_checked, sizes_checked, checked};

use crate::Refusal;
use core_state::whole::is_whole_line;
use steps::State;

pub fn is_whole(state: State) -> bool
    ensures { result ≡ whole_state state }
{
    let core = state.displays.core;
    let line = state.displays.line;
    if core_state::whole::is_whole(core) & is_whole_line(line, core.modes.autowrap) {
        let rows = core.rows;
        state.tracked.changed < 1u64 << rows
    } else {
        false
    }
}

pub fn check_whole(state: State) -> Result<(), Refusal>
    ensures { result ≡ whole_checked state }
{
    if is_whole(state) {
        Ok(())
    } else {
        Err(Refusal::Broken)
    }
}

// Whether page and line are of so many rows.
pub fn check_sizes(rows: u8, page: &[u16], line: &[u16]) -> Result<(), Refusal>
    ensures { result ≡ sizes_checked rows (buffers page.now line.now) }
{
    if (page.len() == 80 * (rows as usize)) & (line.len() == 80) {
        Ok(())
    } else {
        Err(Refusal::WrongSize)
    }
}

// Both lengths are looked at, whichever display is active.
pub fn check(state: State, page: &[u16], line: &[u16]) -> Result<(), Refusal>
    ensures { result ≡ checked state (buffers page.now line.now) }
{
    check_whole(state)?;
    check_sizes(state.displays.core.rows, page, line)
}
