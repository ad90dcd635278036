// Bytes that only move the parser: ESC; CSI, its private mark and its parameters; what opens a string, and its text.
#![tactic(auto)]

ghost use Rattle.std.specs.Prelude.{◌≡◌, true, ◌&&◌, ◌≤◌, eqb, ltb, length, get_or};
ghost use Rattle.idle.specs.Idle.{gathers, opens, is_text, begun, Separated, Skipped, AfterCsi};
ghost use Rattle.parser.specs.Phases.{takes_parameters, is_string};

use ground::numbers::{back, pick};
use ground::tests::between;
use parser::families::{is_joined, joined_mark};
use parser::params::{JOINED, Params, appended, opened};
use parser::parser::Parser;
use parser::phases::{Phase, is_string, takes_parameters};
use parser::rules::opens_string;

// The parser after such bytes, and the place of the next byte. A place counts from the start of the input, and no function takes
// the rest as a slice: what was read is joined from span to span of one input (`Skipped`), and would be shifted each time.
#[derive(Clone, Copy)]
pub struct Idle {
    pub parser: Parser,
    pub next: usize,
}

fn byte_is(input: &[u8], at: usize, byte: u8) -> bool
    ensures { result ≡ (ltb at (length input.now) && eqb (get_or input.now at 0) byte) }
{
    input.get(at) == Some(&byte)
}

// ---- control sequences

// The place after CSI, which is one byte or ESC [; with none, the place itself.
fn after_csi(input: &[u8], from: usize) -> usize
    requires { from ≤ length input.now }
    ensures { AfterCsi input.now from result }
{
    if byte_is(input, from, 0x1B) {
        let next = from + 1;
        if byte_is(input, next, 0x5B) {
            return next + 1;
        }
        return from;
    }
    if byte_is(input, from, 0x9B) {
        from + 1
    } else {
        from
    }
}

// A digit, 3A or 3B; and the private mark, as first byte.
fn gathers(phase: Phase, byte: u8) -> bool
    ensures { result ≡ gathers phase byte }
{
    between(0x30, byte, 0x3B) | (between(0x3C, byte, 0x3F) & (phase == Phase::CsiEntry))
}

fn gathers_at(phase: Phase, input: &[u8], at: usize) -> bool
    ensures { result ≡ (ltb at (length input.now) && gathers phase (get_or input.now at 0)) }
{
    input.get(at).is_some_and(|byte| gathers(phase, *byte))
}

// 3A or 3B: the place is joined or ends, and the next one opens.
fn separate(values: &mut [u16; 16], separators: u8, byte: u8) -> u8
    ensures { Separated values.old values.new separators byte result }
{
    let at = separators as usize;
    if (byte == 0x3A) & (at < 16) {
        values[at] = JOINED;
    }
    if at < 15 {
        values[at + 1] = opened(byte);
        separators + 1
    } else {
        16
    }
}

// The parser right after CSI, or as it was.
fn begun(fresh: bool, parser: Parser) -> Parser
    ensures { result ≡ begun fresh parser }
{
    if fresh {
        Parser::cleared(Phase::CsiEntry)
    } else {
        parser
    }
}

// The mark and the parameters of a control sequence: `Params::take` of each byte, without a copy of the array each time.
fn gather(parser: Parser, input: &[u8], from: usize) -> Idle
    requires { (from ≤ length input.now) × (takes_parameters parser.phase ≡ true) }
    ensures { Skipped parser input.now from result }
{
    let mut separators = parser.params.separators;
    let mut values = parser.params.values;
    let mut mark = parser.mark;
    let mut phase = parser.phase;
    let mut i = from;
    // The test reads the phase, which the first byte changes: a `for` would need the same test, with a `break`.
    while gathers_at(phase, input, i) {
        let byte = input[i];
        let at = separators as usize;
        phase = Phase::CsiParam;
        i += 1;
        if byte < 0x3A {
            if at < 16 {
                values[at] = appended(values[at], back(byte, 0x30, 0));
            }
        } else if 0x3B < byte {
            mark = pick(is_joined(mark), joined_mark(byte), byte);
        } else {
            if (byte == 0x3A) & (at < 16) {
                mark = joined_mark(mark);
            }
            separators = separate(&mut values, separators, byte);
        }
    }
    let params = Params { separators, values };
    Idle {
        parser: parser.with_params(phase, mark, params),
        next: i,
    }
}

// ---- strings

// DCS, SOS, OSC, PM and APC, as one byte or after ESC.
fn opens(phase: Phase, byte: u8) -> bool
    ensures { result ≡ opens phase byte }
{
    if byte < 0x80 {
        (phase == Phase::Escape) & opens_string(byte + 0x40)
    } else {
        opens_string(byte)
    }
}

fn opens_at(phase: Phase, input: &[u8], at: usize) -> bool
    ensures { result ≡ (ltb at (length input.now) && opens phase (get_or input.now at 0)) }
{
    input.get(at).is_some_and(|byte| opens(phase, *byte))
}

// All but CAN, SUB, ESC and 80 to 9F.
fn is_text(byte: u8) -> bool
    ensures { result ≡ is_text byte }
{
    !(((byte == 0x18) | (byte == 0x1A)) | ((byte == 0x1B) | between(0x80, byte, 0x9F)))
}

// The text of a string, which is thrown away.
fn skip_text(parser: Parser, input: &[u8], from: usize) -> Idle
    requires { (from ≤ length input.now) × (is_string parser.phase ≡ true) }
    ensures { Skipped parser input.now from result }
{
    for i in from..input.len() {
        if !is_text(input[i]) {
            return Idle { parser, next: i };
        }
    }
    Idle {
        parser,
        next: input.len(),
    }
}

// A string that opens or goes on here.
fn skip_string(parser: Parser, input: &[u8], from: usize) -> Idle
    requires { from ≤ length input.now }
    ensures { Skipped parser input.now from result }
{
    if opens_at(parser.phase, input, from) {
        return skip_text(parser.in_phase(Phase::StringText), input, from + 1);
    }
    if is_string(parser.phase) {
        return skip_text(parser, input, from);
    }
    Idle { parser, next: from }
}

// ---- both

// As many as there are from here on: a control sequence up to its intermediates or its final, ESC, a string up to its end.
pub fn skip_idle(parser: Parser, input: &[u8], from: usize) -> Idle
    requires { from ≤ length input.now }
    ensures { Skipped parser input.now from result }
{
    let next = after_csi(input, from);
    let fresh = from < next;
    if fresh | (takes_parameters(parser.phase) & !byte_is(input, from, 0x1B)) {
        return gather(begun(fresh, parser), input, next);
    }
    if byte_is(input, from, 0x1B) {
        return skip_string(Parser::cleared(Phase::Escape), input, from + 1);
    }
    skip_string(parser, input, from)
}
