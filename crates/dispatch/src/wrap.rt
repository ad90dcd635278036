// Wrap due: the one policy, over what is heard. The code tests what clears it, which is less than what keeps it.
ghost use Rattle.std.specs.Prelude.{◌≡◌, false, not, ◌&&◌};
ghost use Rattle.parser.specs.Params.{member};
ghost use Rattle.dispatch.specs.Heard as hearing;
ghost use Rattle.dispatch.specs.WrapDue as wrap;

use crate::touches::is_touch;
use core_state::status::is_line;
use core_state::{Core, Decision};
use parser::families::Function;
use parser::params::Params;
use parser::parser::Action;

fn control_clears(byte: u8) -> bool
    ensures { result ≡ member byte hearing.controls && not (member byte wrap.keeping_controls) }
{
    // BS, HT, LF, VT, FF, CR
    matches!(byte, 0x08..=0x0D)
}

// IND, NEL, RI.
fn c1_clears(byte: u8) -> bool
    ensures { result ≡ member byte hearing.c1_controls && not (member byte wrap.keeping_c1) }
{
    matches!(byte, 0x84 | 0x85 | 0x8D)
}

// DECALN, RIS.
fn escape_clears(first: u8, second: u8, last: u8) -> bool
    ensures { result ≡ hearing.listed_escape first second last && not (wrap.escape_keeps first last) }
{
    matches!((first, second, last), (0x23, 0, 0x38) | (0, _, 0x63))
}

// What moves the cursor or cells, and DECSTBM.
fn plain_clears(last: u8) -> bool
    ensures { result ≡ member last hearing.plain_finals && not (member last wrap.keeping_finals) }
{
    is_touch(last) | (last == 0x72)
}

// DECOM, which the status line ignores.
fn sets_origin(core: Core, params: Params) -> bool
    ensures { result ≡ wrap.sets_origin core params }
{
    !is_line(core) & params.has(6)
}

// DECSED, DECSEL; ?6 set or reset; ?7 reset.
fn private_clears(core: Core, params: Params, last: u8) -> bool
    ensures { result ≡ member last hearing.private_finals && not (wrap.private_keeps core params last) }
{
    match last {
        0x4A | 0x4B => true, // DECSED, DECSEL
        0x68 => sets_origin(core, params), // SM
        0x6C => sets_origin(core, params) | params.has(7), // RM
        _ => false,
    }
}

#[tactic(auto, using(crate::proofs::WrapLaws::others_clear))]
fn sequence_clears(core: Core, params: Params, function: Function) -> bool
    ensures { result ≡ hearing.listed_sequence function.mark function.first function.second function.last
        && not (wrap.sequence_keeps core params function.mark function.first function.second function.last) }
{
    if function.is_plain() {
        return plain_clears(function.last);
    }
    if function.is_private() {
        return private_clears(core, params, function.last);
    }
    function.is_soft_reset()
}

#[tactic(auto, using(crate::proofs::WrapLaws::clears_listed))]
pub fn clears_wrap(core: Core, action: Action) -> bool
    requires { hearing.is_ignored core action ≡ false }
    ensures { result ≡ wrap.clears_wrap core action }
{
    match action {
        Action::Control { byte } => control_clears(byte),
        Action::C1Control { byte } => c1_clears(byte),
        Action::EscapeSequence {
            first,
            second,
            last,
        } => escape_clears(first, second, last),
        Action::ControlSequence(function) => sequence_clears(core, core.parser.params, function),
        _ => false,
    }
}

// The policy is put into effect, where the cursor lies in the decision (docs/DECISIONS.md, "Shape").
pub fn apply_wrap_policy(clears: bool, mut decision: Decision) -> Decision
    ensures { result ≡ wrap.with_wrap_policy clears decision }
{
    if clears {
        decision.core.cursor.wrap = false;
    }
    decision
}
