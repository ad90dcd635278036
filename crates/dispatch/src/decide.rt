// An action: the next core, and at most two edits.
ghost use Rattle.std.specs.Prelude.{◌≡◌, false};
ghost use Rattle.core_state.specs.Bounds.{Bounds};
ghost use Rattle.dispatch.specs.Heard.{is_ignored};
ghost use Rattle.dispatch.specs.Decide as decisions;

use crate::heard::unless_ignored;
use crate::wrap::{apply_wrap_policy, clears_wrap};
use core_state::effects::unedited;
use core_state::{Core, Decision};
use csi::sequences::sequence;
use parser::parser::Action;
use vt::controls::{c1_control, control};
use vt::escapes::escape;
use vt::printing::{print, substitute};

// What an action does, but for wrap due.
fn effect(core: Core, action: Action) -> Decision
    requires { Bounds core × (is_ignored core action ≡ false) }
    ensures { result ≡ decisions.effect core action }
{
    match action {
        Action::Nothing => unedited(core),
        Action::Character { byte } => print(core, byte),
        Action::Substitute => substitute(core),
        Action::Control { byte } => control(core, byte),
        Action::C1Control { byte } => c1_control(core, byte),
        Action::EscapeSequence {
            first,
            second,
            last,
        } => escape(core, first, second, last),
        Action::ControlSequence(function) => sequence(core, core.parser.params, function),
    }
}

// What an action does, if it is heard.
#[tactic(auto, using(crate::proofs::HeardLaws::executed_settled))]
pub fn execute(core: Core, action: Action) -> Decision
    requires { Bounds core }
    ensures { result ≡ decisions.executed core action }
{
    let action = unless_ignored(core, action);
    let clears = clears_wrap(core, action);
    apply_wrap_policy(clears, effect(core, action))
}
