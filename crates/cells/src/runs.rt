// Characters put into the cells of one row, in blocks where that is possible. The words of a block are made beside the
// page, so that the compiler may read and write many at once.
ghost use Rattle.std.specs.Prelude.{◌≡◌, true, ◌+◌, ◌≤◌, ◌<◌, length, slice_index};
ghost use Rattle.cells.specs.Runs.{is_character, pen_word, PenFits, Plain, BlockWords, PutSome, PutCharacters};

use crate::segments::paste_words;
use ground::tests::between;

// What characters are put with: the word of a code of GL is `left` and the code, of GR `right` and the code, of the
// byte 20 `space`. From `low` on, 20 or 21, GL's are alike. (PenFits says so in the contracts, and no ghost fields, which
// are proofs: the definition that makes a pen, core_state/specs/Pens.antt, and each equation with it would hold them.)
#[derive(Clone, Copy)]
pub struct Pen {
    pub left: u16,
    pub right: u16,
    pub space: u16,
    pub low: u8,
}

// How many characters were put, and whether a cell changed.
#[derive(Clone, Copy)]
pub struct Put {
    pub count: usize,
    pub changed: bool,
}

// ---- one character

// A character of every set.
pub fn is_character(byte: u8) -> bool
    ensures { result ≡ is_character byte }
{
    between(0x20, byte, 0x7E) | between(0xA1, byte, 0xFE)
}

// The word of a character.
pub fn pen_word(pen: Pen, byte: u8) -> u16
    requires { PenFits pen }
    ensures { result ≡ pen_word pen byte }
{
    let code = (byte % 128) as u16;
    if byte == 0x20 {
        pen.space
    } else if byte < 0x80 {
        pen.left + code
    } else {
        pen.right + code
    }
}

// ---- a block: N characters from `low` to 7E

fn is_plain<const N: usize>(input: &[u8], from: usize, low: u8) -> bool
    requires { from + N ≤ length input.now }
    ensures { result ≡ true → Plain input.now from N low }
{
    // No early exit, so that the compiler may test many at once.
    let mut plain = true;
    for k in 0..N {
        let byte = input[from + k];
        plain &= (low <= byte) & (byte <= 0x7E);
    }
    plain
}

fn block_words<const N: usize>(input: &[u8], from: usize, base: u16) -> [u16; N]
    requires { (from + N ≤ length input.now) × (base ≤ 65280) }
    ensures { BlockWords result input.now from N base }
{
    let mut words = [0; N];
    for k in 0..N {
        words[k] = base + input[from + k] as u16;
    }
    words
}

fn put_block<const N: usize>(
    page: &mut [u16],
    to: usize,
    input: &[u8],
    from: usize,
    pen: Pen,
) -> bool
    requires { (to + N ≤ length page.old) × (from + N ≤ length input.now) × PenFits pen × Plain input.now from N pen.low }
    ensures { PutSome page.old page.new to input.now from pen N result }
{
    let words = block_words::<N>(input, from, pen.left);
    paste_words(
        page,
        to,
        N,
        |k: usize, _: u16| -> u16
            requires { k < N }
            ensures { result ≡ slice_index words k }
        { words[k] },
    )
}

// ---- characters of a row, `most` at the most

// As many blocks of 16 as come. (A `while`, since the place where it stops is the count.)
fn put_blocks(page: &mut [u16], to: usize, most: usize, input: &[u8], from: usize, pen: Pen) -> Put
    requires { (to + most ≤ length page.old) × (from + most ≤ length input.now) × PenFits pen }
    ensures { (result.count ≤ most) × PutSome page.old page.new to input.now from pen result.count result.changed }
{
    let mut changed = false;
    let mut k = 0;
    while k + 16 <= most {
        if !is_plain::<16>(input, from + k, pen.low) {
            return Put { count: k, changed };
        }
        changed |= put_block::<16>(page, to + k, input, from + k, pen);
        k += 16;
    }
    Put { count: k, changed }
}

// The same, and a block of 8 after them, if one comes.
fn put_plain(page: &mut [u16], to: usize, most: usize, input: &[u8], from: usize, pen: Pen) -> Put
    requires { (to + most ≤ length page.old) × (from + most ≤ length input.now) × PenFits pen }
    ensures { (result.count ≤ most) × PutSome page.old page.new to input.now from pen result.count result.changed }
{
    let blocks = put_blocks(page, to, most, input, from, pen);
    let k = blocks.count;
    if most < k + 8 || !is_plain::<8>(input, from + k, pen.low) {
        return blocks;
    }
    let changed = put_block::<8>(page, to + k, input, from + k, pen);
    Put {
        count: k + 8,
        changed: blocks.changed | changed,
    }
}

// As many characters as come: blocks, then one by one. (Page and input with the places in them, and no slices cut out of
// the two: callers go on with these places, and would cut both before each call.)
pub fn put_characters(
    page: &mut [u16],
    to: usize,
    most: usize,
    input: &[u8],
    from: usize,
    pen: Pen,
) -> Put
    requires { (to + most ≤ length page.old) × (from + most ≤ length input.now) × PenFits pen }
    ensures { PutCharacters page.old page.new to most input.now from pen result }
{
    let plain = put_plain(page, to, most, input, from, pen);
    let mut changed = plain.changed;
    for k in plain.count..most {
        let byte = input[from + k];
        if !is_character(byte) {
            return Put { count: k, changed };
        }
        let word = pen_word(pen, byte);
        changed |= page[to + k] != word;
        page[to + k] = word;
    }
    Put {
        count: most,
        changed,
    }
}
