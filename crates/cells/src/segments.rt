// Segments: runs of words in a lent slice. Each function writes each word of its segment once. All but `copy_over`
// and `fill_over` compare it with the one that stood there, and say whether some word changed.
ghost use Rattle.std.specs.Prelude.{List, map, ◌⊎◌, ◌≡◌, ℕ, ◌+◌, ◌≤◌, ◌<◌, length, slice_index, drop, replicate};
ghost use Rattle.std.proofs.Math.Seq.{paste};
ghost use Rattle.cells.specs.Cells.{changed_by};
ghost use Rattle.cells.specs.Segments.{Pasted};

use crate::words::changed_by;
use crate::{COLUMNS, CellChange};

// Word k of the `len` from `to` on becomes what `word` makes of k and of the word that stood there.
pub fn paste_words<F: Fn(usize, u16) -> u16>(
    page: &mut [u16],
    to: usize,
    len: usize,
    word: F,
) -> bool
    requires fits { to + len ≤ length page.old }
    requires callable { (k w : ℕ) → k < len → F.pre word k w }
    ensures { (s : List ℕ) → len ≤ length s
        → ((k w : ℕ) → k < len → F.post word k (slice_index page.old (to + k)) w → w ≡ slice_index s k)
        → Pasted page.old page.new to s len result }
{
    let mut changed = false;
    for k in 0..len {
        let old = page[to + k];
        let new = word(k, old);
        changed |= old != new;
        page[to + k] = new;
    }
    changed
}

// Copies `len` words from `from` to `to`, the first word first. (A loop of its own, as the next: the closure of
// `paste_words` may not read the page that is written.)
fn copy_upward(page: &mut [u16], to: usize, from: usize, len: usize) -> bool
    requires { (from + len ≤ length page.old) × (to + len ≤ length page.old) × ((to ≤ from) ⊎ (from + len ≤ to)) }
    ensures { Pasted page.old page.new to (drop from page.old) len result }
{
    let mut changed = false;
    for k in 0..len {
        let word = page[from + k];
        changed |= page[to + k] != word;
        page[to + k] = word;
    }
    changed
}

// Copies `len` words from `from` to `to`, the last word first.
fn copy_downward(page: &mut [u16], to: usize, from: usize, len: usize) -> bool
    requires { (from ≤ to) × (to + len ≤ length page.old) }
    ensures { Pasted page.old page.new to (drop from page.old) len result }
{
    let mut changed = false;
    for k in (0..len).rev() {
        let word = page[from + k];
        changed |= page[to + k] != word;
        page[to + k] = word;
    }
    changed
}

// Copies `len` words from `from` to `to`: columns of one row to those of another, so upward is right. A row's
// length is written out, since a loop of fixed length is faster.
pub fn copy_columns(page: &mut [u16], to: usize, from: usize, len: usize) -> bool
    requires { (from + len ≤ length page.old) × (to + len ≤ length page.old) × ((to ≤ from) ⊎ (from + len ≤ to)) }
    ensures { Pasted page.old page.new to (drop from page.old) len result }
{
    if len == COLUMNS {
        copy_upward(page, to, from, COLUMNS)
    } else {
        copy_upward(page, to, from, len)
    }
}

// Copies a row's length of words from `from` to `to`, and compares none. (A loop, since `copy_within` tests in each call
// which way to go.)
pub fn copy_over(page: &mut [u16], to: usize, from: usize)
    requires { (from + 80 ≤ length page.old) × (to + 80 ≤ length page.old) × ((to ≤ from) ⊎ (from + 80 ≤ to)) }
    ensures { page.new ≡ paste page.old to (drop from page.old) 80 }
{
    for k in 0..COLUMNS {
        page[to + k] = page[from + k];
    }
}

// Copies `len` words from `from` to `to`. Upward is faster, and wrong only onto a later place that overlaps.
pub fn copy_words(page: &mut [u16], to: usize, from: usize, len: usize) -> bool
    requires { (from + len ≤ length page.old) × (to + len ≤ length page.old) }
    ensures { Pasted page.old page.new to (drop from page.old) len result }
{
    if (to <= from) | (from + len <= to) {
        copy_upward(page, to, from, len)
    } else {
        copy_downward(page, to, from, len)
    }
}

// `len` words from `to` on become `word`.
pub fn fill_words(page: &mut [u16], to: usize, len: usize, word: u16) -> bool
    requires { to + len ≤ length page.old }
    ensures { Pasted page.old page.new to (replicate len word) len result }
{
    paste_words(page, to, len, |_, _| word)
}

// The same in columns of one row; a row's length is written out here too.
pub fn fill_columns(page: &mut [u16], to: usize, len: usize, word: u16) -> bool
    requires { to + len ≤ length page.old }
    ensures { Pasted page.old page.new to (replicate len word) len result }
{
    if len == COLUMNS {
        fill_words(page, to, COLUMNS, word)
    } else {
        fill_words(page, to, len, word)
    }
}

// A row's length of words from `to` on become `word`, and none is compared. (A loop, since `fill` stores the last word
// apart: 80 words are ten stores, 79 and one are seventeen.)
pub fn fill_over(page: &mut [u16], to: usize, word: u16)
    requires { to + 80 ≤ length page.old }
    ensures { page.new ≡ paste page.old to (replicate 80 word) 80 }
{
    for k in 0..COLUMNS {
        page[to + k] = word;
    }
}

// `len` words from `to` on change by what they hold.
pub fn change_words(page: &mut [u16], to: usize, len: usize, change: CellChange) -> bool
    requires { to + len ≤ length page.old }
    ensures { Pasted page.old page.new to (map (changed_by change) (drop to page.old)) len result }
{
    paste_words(page, to, len, |_, old| changed_by(change, old))
}
