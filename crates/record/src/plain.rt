// A record that is plainly that of a whole state, tested as it lies: no intermediate and no subparameter is kept, and no flag is on that
// asks for something besides. Most are plain.
ghost use Rattle.std.specs.Prelude.{◌≡◌, ◌&&◌, nat_lt};
ghost use Rattle.parser.specs.Params.{none_above};
ghost use Rattle.record.specs.Plain as plains;
ghost use Rattle.record.specs.Plain.{every};

use crate::{RenditionRecord, SetsRecord, Terminal};
use core_state::whole::is_sized;
use ground::tests::between;

// Four flags: the compiler tests four bytes that lie side by side at once.
fn are_flags(a: u8, b: u8, c: u8, d: u8) -> bool
    ensures { result ≡ (nat_lt a 2 && nat_lt b 2 && nat_lt c 2 && nat_lt d 2) }
{
    let word = ((d as u32 * 256 + c as u32) * 256 + b as u32) * 256 + a as u32;
    word & 0xFEFEFEFE == 0
}

// Four numbers below 4.
fn are_sets(a: u8, b: u8, c: u8, d: u8) -> bool
    ensures { result ≡ (nat_lt a 4 && nat_lt b 4 && nat_lt c 4 && nat_lt d 4) }
{
    let word = ((d as u32 * 256 + c as u32) * 256 + b as u32) * 256 + a as u32;
    word & 0xFCFCFCFC == 0
}

fn plain_signs(rendition: RenditionRecord, sets: SetsRecord) -> bool
    ensures { result ≡ plains.plain_signs rendition sets }
{
    are_flags(
        rendition.bold,
        rendition.underline,
        rendition.blink,
        rendition.reverse,
    ) & (are_sets(sets.g0, sets.g1, sets.g2, sets.g3) & (sets.gl < 4) & (sets.gr < 4))
}

// All sixteen places, whatever the count: so the test is the same for all.
fn are_numbers(values: [u16; 16]) -> bool
    ensures { result ≡ none_above 9999 values }
{
    let mut low = true;
    for value in values {
        low &= value <= 9999;
    }
    low
}

// Ground, and the phases of a sequence before its intermediates.
fn plain_phase(phase: u8) -> bool
    ensures { result ≡ plains.plain_phase phase }
{
    (phase == 0) | (phase == 1) | (phase == 5) | (phase == 6) | (phase == 10)
}

fn plain_parser(terminal: Terminal) -> bool
    ensures { result ≡ plains.plain_parser terminal.parser }
{
    let parser = terminal.parser;
    (parser.separators <= 16)
        & ((parser.mark == 0) | between(0x3C, parser.mark, 0x3F))
        & plain_phase(parser.phase)
}

// Where cursors and margins are.
fn plain_places(terminal: Terminal) -> bool
    ensures { result ≡ every (plains.place_tests terminal) }
{
    let rows = terminal.rows;
    let cursor = terminal.cursor;
    let saved = terminal.saved.cursor;
    is_sized(rows)
        & between(1, cursor.row, rows)
        & between(1, saved.row, rows)
        & (1 <= terminal.top)
        & (terminal.top < terminal.bottom)
        & (terminal.bottom <= rows)
        & between(1, cursor.column, 80)
        & between(1, saved.column, 80)
        & between(1, terminal.status.column, 80)
        & between(1, terminal.status.saved.column, 80)
}

// No wrap due, here or saved, origin off, the page active; the others are flags and shifts.
fn plain_flags(terminal: Terminal) -> bool
    ensures { result ≡ every (plains.flag_tests terminal) }
{
    let modes = terminal.modes;
    let saved = terminal.saved;
    let status = terminal.status;
    let kept = status.saved;
    (terminal.cursor.wrap == 0)
        & (modes.origin == 0)
        & (saved.cursor.wrap == 0)
        & (status.wrap == 0)
        & (kept.wrap == 0)
        & (status.active == 0)
        & (modes.insert < 2)
        & (modes.newline < 2)
        & (modes.autowrap < 2)
        & (modes.shown < 2)
        & (modes.eightbit < 2)
        & (modes.rectangle < 2)
        & (terminal.protected < 2)
        & (saved.protected < 2)
        & (kept.protected < 2)
        & (saved.origin < 2)
        & (status.present < 2)
        & (terminal.flag < 2)
        & (terminal.shift < 3)
        & (saved.shift < 3)
        & (kept.shift < 3)
}

pub fn is_plain(terminal: Terminal) -> bool
    ensures { result ≡ plains.plain terminal }
{
    let saved = terminal.saved;
    let kept = terminal.status.saved;
    if !are_numbers(terminal.values) {
        return false;
    }
    if !(plain_parser(terminal) & plain_places(terminal)) {
        return false;
    }
    if !plain_flags(terminal) {
        return false;
    }
    if !(plain_signs(terminal.rendition, terminal.sets)
        & plain_signs(saved.rendition, saved.sets)
        & plain_signs(kept.rendition, kept.sets))
    {
        return false;
    }
    terminal.changed < 1u64 << terminal.rows
}
