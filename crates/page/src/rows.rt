// Rows: columns of one row, and of a block of rows. Each function that writes hands back the bits of
// the rows that it changed; one that is told the rows that are known to have changed adds its own to them. Those that move rows are
// inlined, for the stack that a call takes.
ghost use Rattle.std.specs.Prelude.{◌⊎◌, ◌≡◌, ◌+◌, ◌-◌, ◌*◌, ◌≤◌, eqb, length, drop, replicate};
ghost use Rattle.std.proofs.Math.Seq.{paste};
ghost use Rattle.cells.specs.Rows.{row};
ghost use Rattle.page.specs.Edits.{overlaid, overlaid_from, changed_row, in_range};
ghost use Rattle.page.specs.Writes.{Redone, RedoneOver, BlockFits, OnPage};

use cells::marks::{has_bit, row_bit};
use cells::segments::{change_words, copy_columns, copy_over, copy_words, fill_columns, fill_over};
use cells::{COLUMNS, CellChange};

// Rows `top` to `end` in the columns `left` to `right`.
#[derive(Clone, Copy)]
pub struct Block {
    pub top: u8,
    pub end: u8,
    pub left: u8,
    pub right: u8,
}

impl Block {
    pub fn new(top: u8, end: u8, left: u8, right: u8) -> Self
        ensures { result ≡ record { top = top; end = end; left = left; right = right } }
    {
        Block {
            top,
            end,
            left,
            right,
        }
    }
}

// Where a cell stands in the page.
pub fn place(row: u8, column: u8) -> usize
    ensures { result ≡ 80 * row + column }
{
    COLUMNS * (row as usize) + column as usize
}

// Row `to`, which stands at `at`, becomes the words at `source`. It is not compared where it is known to have changed.
fn copy_row(page: &mut [u16], to: u8, at: usize, source: usize, known: u64) -> u64
    requires { BlockFits page.old to (to + 1) 0 80 × (at ≡ 80 * to) × (source + 80 ≤ length page.old) × ((at ≤ source) ⊎ (source + 80 ≤ at)) }
    ensures { RedoneOver page.old page.new (λ j. eqb j to)
        (λ j. paste (row page.old j) 0 (drop source page.old) 80) known result }
{
    if has_bit(known, to) {
        copy_over(page, at, source);
        return known;
    }
    let changed = copy_columns(page, at, source, COLUMNS);
    known | row_bit(to, changed)
}

// Columns `left` to `right` of row `to` become as many of row `from`, from `column` on: cells that stand there
// or later in the page. Of a whole row the columns are written out, so that the compiler sees how far the two lie apart.
fn move_row(page: &mut [u16], to: u8, from: u8, left: u8, right: u8, column: u8, known: u64) -> u64
    requires { BlockFits page.old to (to + 1) left right × (80 * (from + 1) ≤ length page.old) × (column + (right - left) ≤ 80)
        × (80 * to + left ≤ 80 * from + column) }
    ensures { RedoneOver page.old page.new (λ j. eqb j to)
        (λ j. overlaid_from (row page.old j) left right (row page.old from) column) known result }
{
    let len = (right - left) as usize;
    if len == COLUMNS {
        return copy_row(page, to, place(to, 0), place(from, 0), known);
    }
    let changed = copy_columns(page, place(to, left), place(from, column), len);
    known | row_bit(to, changed)
}

// The same of a row above, with `gap` rows between the two. Of a whole row `COLUMNS` stands beside the gap, so
// that it sees that the two never overlap.
#[inline(always)]
fn lower_row(page: &mut [u16], to: u8, gap: u8, left: u8, right: u8, column: u8, known: u64) -> u64
    requires { BlockFits page.old to (to + 1) left right × (gap + 1 ≤ to) × (column + (right - left) ≤ 80) }
    ensures { RedoneOver page.old page.new (λ j. eqb j to)
        (λ j. overlaid_from (row page.old j) left right (row page.old (to - (gap + 1))) column) known result }
{
    let len = (right - left) as usize;
    if len == COLUMNS {
        let at = place(to, 0);
        return copy_row(
            page,
            to,
            at,
            at - (COLUMNS * (gap as usize) + COLUMNS),
            known,
        );
    }
    let from = place(to, column) - (COLUMNS * (gap as usize) + COLUMNS);
    let moved = copy_columns(page, place(to, left), from, len);
    known | row_bit(to, moved)
}

// Columns `left` to `right` of row `at` become as many of the same row, from `column` on.
fn slide_row(page: &mut [u16], at: u8, left: u8, right: u8, column: u8) -> u64
    requires { BlockFits page.old at (at + 1) left right × (column + (right - left) ≤ 80) }
    ensures { Redone page.old page.new (λ j. eqb j at)
        (λ j. overlaid_from (row page.old j) left right (row page.old at) column) result }
{
    let len = (right - left) as usize;
    let moved = copy_words(page, place(at, left), place(at, column), len);
    row_bit(at, moved)
}

// Columns `left` to `right` of row `at` become `word`. A whole row is not compared where it is known to have changed.
pub fn fill_row(page: &mut [u16], at: u8, left: u8, right: u8, word: u16, known: u64) -> u64
    requires { BlockFits page.old at (at + 1) left right }
    ensures { RedoneOver page.old page.new (λ j. eqb j at)
        (λ j. paste (row page.old j) left (replicate (right - left) word) (right - left)) known result }
{
    let len = (right - left) as usize;
    if len == COLUMNS {
        if has_bit(known, at) {
            fill_over(page, place(at, 0), word);
            return known;
        }
    }
    let changed = fill_columns(page, place(at, left), len, word);
    known | row_bit(at, changed)
}

// Columns `left` to `right` of row `at` change by what they hold.
#[inline(always)]
pub fn change_row(page: &mut [u16], at: u8, left: u8, right: u8, change: CellChange) -> u64
    requires { BlockFits page.old at (at + 1) left right }
    ensures { Redone page.old page.new (λ j. eqb j at)
        (λ j. changed_row change (row page.old j) left right) result }
{
    let len = (right - left) as usize;
    let changed = change_words(page, place(at, left), len, change);
    row_bit(at, changed)
}

// ---- a block (each function with its own loop: a loop that they share would take a closure over the page, and each of
// its calls be as long as these)

// Its rows become as many of the rows `count` below, from `column` on.
#[inline(always)]
pub fn raise_rows(page: &mut [u16], block: Block, count: u8, column: u8, known: u64) -> u64
    requires { BlockFits page.old block.top (block.end + count) block.left block.right × (block.top ≤ block.end)
        × (column + (block.right - block.left) ≤ 80) × (block.left ≤ column + 80 * count) }
    ensures { RedoneOver page.old page.new (in_range block.top block.end)
        (λ j. overlaid_from (row page.old j) block.left block.right (row page.old (j + count)) column) known result }
{
    let mut bits = known;
    for k in block.top..block.end {
        bits = move_row(page, k, k + count, block.left, block.right, column, bits);
    }
    bits
}

// They become as many of the rows `count` above.
#[inline(always)]
pub fn lower_rows(page: &mut [u16], block: Block, count: u8, column: u8, known: u64) -> u64
    requires { OnPage page.old block × (count ≤ block.top) × (column + (block.right - block.left) ≤ 80) × (count ≡ 0 → column ≡ block.left) }
    ensures { RedoneOver page.old page.new (in_range block.top block.end)
        (λ j. overlaid_from (row page.old j) block.left block.right (row page.old (j - count)) column) known result }
{
    let mut bits = known;
    if 0 < count {
        for k in (block.top..block.end).rev() {
            bits = lower_row(page, k, count - 1, block.left, block.right, column, bits);
        }
    }
    bits
}

// They become as many of their own rows.
pub fn slide_rows(page: &mut [u16], block: Block, column: u8) -> u64
    requires { OnPage page.old block × (column + (block.right - block.left) ≤ 80) }
    ensures { Redone page.old page.new (in_range block.top block.end)
        (λ j. overlaid_from (row page.old j) block.left block.right (row page.old j) column) result }
{
    let mut bits = 0;
    for k in block.top..block.end {
        bits |= slide_row(page, k, block.left, block.right, column);
    }
    bits
}

// They become `word`.
pub fn fill_rows(page: &mut [u16], block: Block, word: u16, known: u64) -> u64
    requires { OnPage page.old block }
    ensures { RedoneOver page.old page.new (in_range block.top block.end)
        (λ j. overlaid (row page.old j) block.left block.right (replicate 80 word)) known result }
{
    let mut bits = known;
    for k in block.top..block.end {
        bits = fill_row(page, k, block.left, block.right, word, bits);
    }
    bits
}

// They change by what they hold.
pub fn change_rows(page: &mut [u16], block: Block, change: CellChange) -> u64
    requires { OnPage page.old block }
    ensures { Redone page.old page.new (in_range block.top block.end)
        (λ j. changed_row change (row page.old j) block.left block.right) result }
{
    let mut bits = 0;
    for k in block.top..block.end {
        bits |= change_row(page, k, block.left, block.right, change);
    }
    bits
}
