// The range rules: what the parser does with a byte in each phase, for all 256 bytes.
ghost use Rattle.std.specs.Prelude.{◌≡◌, cond, ◌<◌, ltb};
ghost use Rattle.parser.specs.Parser as parsing;

use crate::phases::{Op, Phase, Transition, is_ground, is_string};
use ground::tests::between;

fn to(next: Phase, op: Op) -> Transition
    ensures { result ≡ parsing.to next op }
{
    Transition { next, op }
}

// One rule for the bytes below a limit, and one for the others.
fn below(x: u8, limit: u8, low: Transition, high: Transition) -> Transition
    ensures { result ≡ cond (ltb x limit) low high }
{
    if x < limit { low } else { high }
}

// DCS, SOS, OSC, PM and APC open a string.
pub fn opens_string(byte: u8) -> bool
    ensures { result ≡ parsing.opens_string byte }
{
    (byte == 0x90) | (byte == 0x98) | between(0x9D, byte, 0x9F)
}

// 80 to 9F: what is in progress is dropped.
fn c1_rule(byte: u8) -> Transition
    ensures { result ≡ parsing.c1_rule byte }
{
    if byte == 0x9B {
        return to(Phase::CsiEntry, Op::Clear);
    }
    if opens_string(byte) {
        return to(Phase::StringText, Op::Ignore);
    }
    to(Phase::Ground, Op::C1)
}

// A control sequence before any intermediate. A mark is taken only as first byte.
fn parameter_rule(x: u8, marked: Transition) -> Transition
    ensures { result ≡ parsing.parameter_rule x marked }
{
    if x < 0x30 {
        return to(Phase::CsiOne, Op::Collect);
    }
    if x < 0x3C {
        return to(Phase::CsiParam, Op::Param);
    }
    below(x, 0x40, marked, to(Phase::Ground, Op::CsiDispatch))
}

// A control sequence after an intermediate: one more, nothing of 30 to 3F, a final.
fn intermediate_rule(x: u8, more: Transition) -> Transition
    ensures { result ≡ parsing.intermediate_rule x more }
{
    if x < 0x30 {
        return more;
    }
    below(
        x,
        0x40,
        to(Phase::CsiIgnore, Op::Ignore),
        to(Phase::Ground, Op::CsiDispatch),
    )
}

// An escape sequence before any intermediate: one of them, 40 to 5F as the control 40 higher, a final.
fn escape_rule(x: u8) -> Transition
    requires { x < 128 }
    ensures { result ≡ parsing.escape_rule x }
{
    if x < 0x30 {
        return to(Phase::EscapeOne, Op::Collect);
    }
    if between(0x40, x, 0x5F) {
        return c1_rule(x + 0x40);
    }
    to(Phase::Ground, Op::EscDispatch)
}

// 20 to 7E in a sequence. In the other phases no byte is read by this rule. (Inlined, for the stack that a call takes.)
#[inline(always)]
pub fn sequence_rule(phase: Phase, x: u8) -> Transition
    requires { x < 128 }
    ensures { result ≡ parsing.sequence_rule phase x }
{
    let dispatch = to(Phase::Ground, Op::EscDispatch);
    let ends = to(Phase::Ground, Op::Ignore);
    let ignored = to(Phase::CsiIgnore, Op::Ignore);
    match phase {
        Phase::Escape => escape_rule(x),
        Phase::EscapeOne => below(x, 0x30, to(Phase::EscapeTwo, Op::Collect), dispatch),
        Phase::EscapeTwo => below(x, 0x30, to(Phase::EscapeIgnore, Op::Ignore), dispatch),
        Phase::EscapeIgnore => below(x, 0x30, to(Phase::EscapeIgnore, Op::Ignore), ends),
        Phase::CsiEntry => parameter_rule(x, to(Phase::CsiParam, Op::Mark)),
        Phase::CsiParam => parameter_rule(x, ignored),
        Phase::CsiOne => intermediate_rule(x, to(Phase::CsiTwo, Op::Collect)),
        Phase::CsiTwo => intermediate_rule(x, ignored),
        Phase::CsiIgnore => below(x, 0x40, ignored, ends),
        Phase::Ground | Phase::StringText => to(phase, Op::Ignore),
    }
}

// In a sequence controls act at once, 7F is skipped, and A0 to FF are read as 80 less.
fn in_sequence(phase: Phase, byte: u8) -> Transition
    ensures { result ≡ parsing.in_sequence phase byte }
{
    if byte < 0x20 {
        return to(phase, Op::Execute);
    }
    let x = byte % 128;
    if x == 0x7F {
        return to(phase, Op::Ignore);
    }
    sequence_rule(phase, x)
}

// The bytes that do not act alike in every phase: ground prints them, in a string they are lost.
fn phase_rule(phase: Phase, byte: u8) -> Transition
    ensures { result ≡ parsing.phase_rule phase byte }
{
    if is_ground(phase) {
        return below(byte, 0x20, to(phase, Op::Execute), to(phase, Op::Print));
    }
    if is_string(phase) {
        return to(phase, Op::Ignore);
    }
    in_sequence(phase, byte)
}

// CAN, SUB, ESC and 80 to 9F act alike in every phase.
pub fn transition(phase: Phase, byte: u8) -> Transition
    ensures { result ≡ parsing.transition phase byte }
{
    match byte {
        0x18 => to(Phase::Ground, Op::Ignore),
        0x1A => to(Phase::Ground, Op::Sub),
        0x1B => to(Phase::Escape, Op::Clear),
        0x80..=0x9F => c1_rule(byte),
        _ => phase_rule(phase, byte),
    }
}
