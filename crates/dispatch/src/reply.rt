// What the terminal sends back: which reply an action draws.
ghost use Rattle.std.specs.Prelude.{◌≡◌, if◌then◌else◌, nat_eq};
ghost use Rattle.core_state.specs.Bounds.{Bounds};
ghost use Rattle.device.specs.declared.sending.Reply.TheVariants.{PrimaryAttributes};
ghost use Rattle.dispatch.specs.Heard.{is_secondary};
ghost use Rattle.dispatch.specs.Replies.{reported_row, plain_reply, private_reply, sequence_reply, reply_to};

use core_state::Core;
use core_state::geometry::first_row;
use device::sending::Reply;
use parser::families::Function;
use parser::params::Params;
use parser::parser::Action;

// The cursor's row, counted from T with origin on.
fn reported_row(core: Core) -> u8
    requires { Bounds core }
    ensures { result ≡ reported_row core }
{
    core.cursor.row.saturating_sub(first_row(core)) + 1
}

// DA, DSR, CPR.
fn plain_reply(core: Core, params: Params, last: u8) -> Option<Reply>
    requires { Bounds core }
    ensures { result ≡ plain_reply core params last }
{
    match (last, params.get(0)) {
        // DA
        (0x63, 0) => Some(Reply::PrimaryAttributes),
        // DSR
        (0x6E, 5) => Some(Reply::Status),
        // CPR
        (0x6E, 6) => Some(Reply::Position {
            row: reported_row(core),
            column: core.cursor.column,
        }),
        _ => None,
    }
}

// DECXCPR and the printer's DSR.
fn private_reply(core: Core, params: Params, last: u8) -> Option<Reply>
    requires { Bounds core }
    ensures { result ≡ private_reply core params last }
{
    match (last, params.get(0)) {
        // DECXCPR
        (0x6E, 6) => Some(Reply::ExtendedPosition {
            row: reported_row(core),
            column: core.cursor.column,
        }),
        // the printer's DSR
        (0x6E, 15) => Some(Reply::Printer),
        _ => None,
    }
}

// Secondary DA: > c.
fn is_secondary(function: Function) -> bool
    ensures { result ≡ is_secondary function.mark function.first function.second function.last }
{
    (function.mark == 0x3E)
        & (function.first == 0)
        & (function.second == 0)
        & (function.last == 0x63)
}

fn sequence_reply(core: Core, function: Function) -> Option<Reply>
    requires { Bounds core }
    ensures { result ≡ sequence_reply core core.parser.params function.mark function.first function.second function.last }
{
    let params = core.parser.params;
    if function.is_plain() {
        return plain_reply(core, params, function.last);
    }
    if function.is_private() {
        return private_reply(core, params, function.last);
    }
    if is_secondary(function) & (params.get(0) == 0) {
        return Some(Reply::SecondaryAttributes);
    }
    None
}

// DECID is answered as DA.
fn control_reply(byte: u8) -> Option<Reply>
    ensures { result ≡ (if nat_eq byte 0x9A then Some PrimaryAttributes else None) }
{
    match byte {
        0x9A => Some(Reply::PrimaryAttributes),
        _ => None,
    }
}

// No reply is drawn by what is not heard, so that is not asked.
pub fn reply_to(core: Core, action: Action) -> Option<Reply>
    requires { Bounds core }
    ensures { result ≡ reply_to core action }
{
    match action {
        Action::C1Control { byte } => control_reply(byte),
        Action::ControlSequence(function) => sequence_reply(core, function),
        _ => None,
    }
}
