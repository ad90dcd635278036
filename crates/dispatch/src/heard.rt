// What is heard: an action that is ignored here and now is nothing. What is not listed does nothing by itself.
ghost use Rattle.std.specs.Prelude.{◌≡◌, not, ◌||◌};
ghost use Rattle.core_state.specs.StatusLine.{is_line};
ghost use Rattle.dispatch.specs.Heard as hearing;
ghost use Rattle.dispatch.specs.Touches.{touch_ignored};

use core_state::Core;
use core_state::status::is_line;
use csi::modes::margins_taken;
use ground::tests::between;
use parser::families::Function;
use parser::params::Params;
use parser::parser::Action;

pub fn inside_margins(core: Core) -> bool
    ensures { result ≡ hearing.inside_margins core }
{
    between(core.margins.top, core.cursor.row, core.margins.bottom)
}

// Outside T to B, and on the status line.
pub fn ignores_lines(core: Core) -> bool
    ensures { result ≡ is_line core || not (hearing.inside_margins core) }
{
    is_line(core) | !inside_margins(core)
}

// One arm for each final, as in `is_touch`. By the first parameter: ICH, IL, DL, DCH outside T to B, IL and DL on the status line; ED, EL with a selector that is not listed.
pub fn touch_ignored(core: Core, first: u16, last: u8) -> bool
    ensures { result ≡ touch_ignored core first last }
{
    match last {
        0x40 => !inside_margins(core), // ICH
        0x4A => 2 < first, // ED
        0x4B => 2 < first, // EL
        0x4C => ignores_lines(core), // IL
        0x4D => ignores_lines(core), // DL
        0x50 => !inside_margins(core), // DCH
        _ => false,
    }
}

// And DECSTBM unless top is above bottom.
fn plain_ignored(core: Core, params: Params, last: u8) -> bool
    ensures { result ≡ hearing.plain_ignored core params last }
{
    if last == 0x72 {
        return !margins_taken(core, params);
    }
    touch_ignored(core, params.get(0), last)
}

// DECSED, DECSEL likewise.
fn private_ignored(params: Params, last: u8) -> bool
    ensures { result ≡ hearing.private_ignored params last }
{
    matches!(last, 0x4A | 0x4B) & (2 < params.get(0))
}

fn ignored_sequence(core: Core, params: Params, function: Function) -> bool
    ensures { result ≡ hearing.ignored_sequence core params function.mark function.first function.second function.last }
{
    if function.is_plain() {
        return plain_ignored(core, params, function.last);
    }
    function.is_private() & private_ignored(params, function.last)
}

fn is_ignored(core: Core, action: Action) -> bool
    ensures { result ≡ hearing.is_ignored core action }
{
    matches!(action, Action::ControlSequence(function) if ignored_sequence(core, core.parser.params, function))
}

pub fn unless_ignored(core: Core, action: Action) -> Action
    ensures { result ≡ hearing.unless_ignored core action }
{
    if is_ignored(core, action) {
        return Action::Nothing;
    }
    action
}
