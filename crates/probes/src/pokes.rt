// A state with one field changed, or with another parser, so that broken ones are tried too.
ghost use Rattle.std.specs.Prelude.{◌≡◌, ◌+◌, ◌*◌, drop};
ghost use Rattle.probes.specs.Pokes as poking;

use cells::marks::row_bit;
use core_state::{Core, Displays, StatusLine};
use parser::params::Params;
use parser::parser::Parser;
use parser::phases::Phase;
use steps::{State, Tracked};

// ---- one field

#[tactic(auto, unfolding(crate::specs::Pokes::number_poked))]
fn poke_number(mut core: Core, field: u16, n: u8) -> Core
    ensures { result ≡ poking.number_poked core field n }
{
    match field {
        0 => core.rows = n,
        1 => core.cursor.row = n,
        2 => core.cursor.column = n,
        4 => core.margins.top = n,
        5 => core.margins.bottom = n,
        8 => core.saved.cursor.row = n,
        9 => core.saved.cursor.column = n,
        _ => {}
    }
    core
}

#[tactic(auto, unfolding(crate::specs::Pokes::flag_poked))]
fn poke_flag(mut core: Core, field: u16, on: bool) -> Core
    ensures { result ≡ poking.flag_poked core field on }
{
    match field {
        3 => core.cursor.wrap = on,
        6 => core.modes.origin = on,
        7 => core.modes.autowrap = on,
        10 => core.saved.cursor.wrap = on,
        11 => core.modes.shown = on,
        _ => {}
    }
    core
}

// `n` is 0 to 255; a flag is whether it is not 0. No field is of both kinds.
#[tactic(auto, unfolding(crate::specs::Pokes::poked_core))]
fn poke_core(core: Core, field: u16, n: u8) -> Core
    ensures { result ≡ poking.poked_core core field n }
{
    poke_flag(poke_number(core, field, n), field, n != 0)
}

#[tactic(auto, unfolding(crate::specs::Pokes::line_number_poked))]
fn poke_line_number(mut line: StatusLine, field: u16, n: u8) -> StatusLine
    ensures { result ≡ poking.line_number_poked line field n }
{
    match field {
        15 => line.column = n,
        17 => line.saved.column = n,
        _ => {}
    }
    line
}

#[tactic(auto, unfolding(crate::specs::Pokes::line_flag_poked))]
fn poke_line_flag(mut line: StatusLine, field: u16, on: bool) -> StatusLine
    ensures { result ≡ poking.line_flag_poked line field on }
{
    match field {
        13 => line.present = on,
        14 => line.active = on,
        16 => line.wrap = on,
        18 => line.saved.wrap = on,
        _ => {}
    }
    line
}

#[tactic(auto, unfolding(crate::specs::Pokes::poked_line))]
fn poke_line(line: StatusLine, field: u16, n: u8) -> StatusLine
    ensures { result ≡ poking.poked_line line field n }
{
    poke_line_flag(poke_line_number(line, field, n), field, n != 0)
}

// Field 12 adds a row to the changed ones, and 19 is the line's changed flag.
#[tactic(auto, unfolding(crate::specs::Pokes::poked_tracked))]
fn poke_tracked(mut tracked: Tracked, field: u16, n: u16) -> Tracked
    ensures { result ≡ poking.poked_tracked tracked field n }
{
    match field {
        12 => {
            let row = (u32::from(n) + 63) % 64;
            tracked.changed |= row_bit(row as u8, true);
        }
        19 => tracked.flag = n % 256 != 0,
        _ => {}
    }
    tracked
}

pub fn poke(state: State, field: u16, n: u16) -> State
    ensures { result ≡ poking.poked state field n }
{
    let low = (n % 256) as u8;
    State {
        displays: Displays {
            core: poke_core(state.displays.core, field, low),
            line: poke_line(state.displays.line, field, low),
        },
        tracked: poke_tracked(state.tracked, field, n),
    }
}

// ---- the parser

pub fn number16(low: u8, high: u8) -> u16
    ensures { result ≡ low + 256 * high }
{
    u16::from_le_bytes([low, high])
}

// The values of the parameters, from the sixth byte on.
fn values_of(bytes: [u8; 37]) -> [u16; 16]
    ensures { result ≡ poking.numbers_of (drop 5 bytes) }
{
    let mut values = [0u16; 16];
    for i in 0..16 {
        let at = 5 + 2 * i;
        values[i] = number16(bytes[at], bytes[at + 1]);
    }
    values
}

#[tactic(auto, unfolding(crate::specs::Pokes::parser_of))]
fn parser_of(bytes: [u8; 37]) -> Parser
    ensures { result ≡ poking.parser_of bytes }
{
    Parser {
        phase: Phase::from(bytes[0] % 11),
        mark: bytes[1],
        first: bytes[2],
        second: bytes[3],
        params: Params {
            separators: bytes[4],
            values: values_of(bytes),
        },
    }
}

pub fn poke_parser(mut state: State, bytes: [u8; 37]) -> State
    ensures { result ≡ poking.parser_poked state bytes }
{
    state.displays.core.parser = parser_of(bytes);
    state
}
