// A few characters, put with the numbers of a plain record as it lies: no state is made.
#![tactic(auto)]

pub mod parsing;

ghost use Rattle.std.specs.Prelude.{◌≡◌, ℕ, ◌+◌, ◌*◌, ◌≤◌, true, map, length};
ghost use Rattle.cells.specs.Segments.{Pasted};
ghost use Rattle.record.specs.Plain.{plain};
ghost use Rattle.inplace.specs.InPlace.{all_ascii, puts_ascii, takes_in_place, base_of, moved_by, FedInPlace};

use cells::marks::row_bit;
use cells::segments::paste_words;
use ground::tests::between;
use record::Terminal;

// ---- which

fn all_ascii(input: &[u8]) -> bool
    ensures { result ≡ all_ascii input.now }
{
    let mut all = true;
    for byte in input {
        all &= between(0x20, *byte, 0x7E);
    }
    all
}

// In ground, no shift pending, insert mode off, and GL is ASCII.
fn puts_ascii(terminal: Terminal) -> bool
    ensures { result ≡ puts_ascii terminal }
{
    (terminal.parser.phase == 0)
        & (terminal.shift == 0)
        & (terminal.modes.insert == 0)
        & (terminal.sets.g0 == 0)
        & (terminal.sets.gl == 0)
}

// A few characters that leave the cursor in its row with no wrap due. (Not inlined, for the stack that a call takes.)
#[inline(never)]
pub fn takes(terminal: Terminal, input: &[u8]) -> bool
    ensures { result ≡ takes_in_place terminal input.now }
{
    if !(puts_ascii(terminal) & (input.len() <= 16)) {
        return false;
    }
    if 80 < terminal.cursor.column as usize + input.len() {
        return false;
    }
    all_ascii(input)
}

// ---- put; that the record is plain is asked of it as it lies: a type that holds the fact would be made of it, and taken apart, in each call

// A word without its code.
fn base(terminal: Terminal) -> u16
    requires { plain terminal ≡ true }
    ensures { result ≡ base_of terminal }
{
    let rendition = terminal.rendition;
    rendition.bold as u16 * 512
        + rendition.underline as u16 * 1024
        + rendition.blink as u16 * 2048
        + rendition.reverse as u16 * 4096
        + terminal.protected as u16 * 8192
}

fn put_ascii(page: &mut [u16], at: usize, input: &[u8], base: u16) -> bool
    requires { (at + length input.now ≤ length page.old) × (base ≤ 65280) }
    ensures { Pasted page.old page.new at (map (λ (b : ℕ). base + b) input.now) (length input.now) result }
{
    paste_words(page, at, input.len(), |k, _| base + input[k] as u16)
}

// The page after the characters, and whether a cell changed: with the record `moved` on, that is all that a feeding does.
pub fn put_in_place(terminal: Terminal, page: &mut [u16], input: &[u8]) -> bool
    requires { (plain terminal ≡ true) × (takes_in_place terminal input.now ≡ true) × (length page.old ≡ 80 * terminal.rows) }
    ensures { FedInPlace terminal page.old input.now (moved_by terminal (length input.now) result) page.new }
{
    let cursor = terminal.cursor;
    let at = 80 * (cursor.row as usize - 1) + (cursor.column as usize - 1);
    put_ascii(page, at, input, base(terminal))
}

// The record after so many characters, with the cursor's row if it changed.
pub fn moved(mut terminal: Terminal, count: usize, changed: bool) -> Terminal
    requires { (plain terminal ≡ true) × (terminal.cursor.column + count ≤ 80) }
    ensures { result ≡ moved_by terminal count changed }
{
    let unused = [0u8; 5];
    terminal.changed |= row_bit(terminal.cursor.row - 1, changed);
    terminal.cursor.column += count as u8;
    terminal.unused = unused;
    terminal
}
