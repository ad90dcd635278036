// Edits: one function for each, and `apply` for any.
ghost use Rattle.std.specs.Prelude.{◌≡◌, ◌+◌, ◌-◌, ◌/◌, ◌≤◌, length, replicate};
ghost use Rattle.page.specs.declared.Edit.TheVariants.{Put, InsertCells, DeleteCells, ScrollUp, ScrollDown};
ghost use Rattle.page.specs.declared.Edit.TheVariants.{FillRange, ChangeRange, CopyRectangle};
ghost use Rattle.cells.specs.Cells.{blank};
ghost use Rattle.page.specs.Edits.{range_start};
ghost use Rattle.page.specs.Writes.{Edited, EditedOver, BlockFits, OnPage, Fits, AppliedOver};

use crate::Edit;
use crate::rows::{
    Block, change_row, change_rows, fill_row, fill_rows, lower_rows, place, raise_rows, slide_rows,
};
use cells::marks::row_bit;
use cells::segments::{copy_words, fill_words};
use cells::{BLANK, COLUMNS, CellChange};

// The page's width among places in reading order, and how far a row's last cell is from its first.
const WIDTH: u16 = COLUMNS as u16;

const LAST: u16 = WIDTH - 1;

// A word into one cell.
pub fn put(page: &mut [u16], row: u8, column: u8, word: u16) -> u64
    requires { BlockFits page.old row (row + 1) column (column + 1) }
    ensures { Edited (Put row column word) page.old page.new result }
{
    let at = place(row, column);
    let changed = page[at] != word;
    page[at] = word;
    row_bit(row, changed)
}

// The cells of a row go right from `column`, up to `end`, and `word` enters.
fn insert_cells(page: &mut [u16], row: u8, column: u8, end: u8, count: u8, word: u16) -> u64
    requires { BlockFits page.old row (row + 1) column end × (count ≤ end - column) }
    ensures { Edited (InsertCells row column end count word) page.old page.new result }
{
    let at = place(row, column);
    let n = count as usize;
    let rest = (end - column - count) as usize;
    let moved = copy_words(page, at + n, at, rest);
    let filled = fill_words(page, at, n, word);
    row_bit(row, moved | filled)
}

// The cells of a row go left, down to `column`, and blanks enter before `end`.
fn delete_cells(page: &mut [u16], row: u8, column: u8, end: u8, count: u8) -> u64
    requires { BlockFits page.old row (row + 1) column end × (count ≤ end - column) }
    ensures { Edited (DeleteCells row column end count) page.old page.new result }
{
    let at = place(row, column);
    let n = count as usize;
    let rest = (end - column - count) as usize;
    let moved = copy_words(page, at, at + n, rest);
    let filled = fill_words(page, at + rest, n, BLANK);
    row_bit(row, moved | filled)
}

// Rows go up, and blanks enter below.
fn scroll_up(page: &mut [u16], block: Block, count: u8, known: u64) -> u64
    requires { OnPage page.old block × (count ≤ block.end - block.top) }
    ensures { EditedOver (ScrollUp block.top block.end block.left block.right count) page.old page.new known result }
{
    let last = block.end - count;
    let moved = raise_rows(page, Block { end: last, ..block }, count, block.left, known);
    fill_rows(page, Block { top: last, ..block }, BLANK, moved)
}

// Rows go down, and blanks enter above.
fn scroll_down(page: &mut [u16], block: Block, count: u8, known: u64) -> u64
    requires { OnPage page.old block × (count ≤ block.end - block.top) }
    ensures { EditedOver (ScrollDown block.top block.end block.left block.right count) page.old page.new known result }
{
    let first = block.top + count;
    let moved = lower_rows(
        page,
        Block {
            top: first,
            ..block
        },
        count,
        block.left,
        known,
    );
    fill_rows(
        page,
        Block {
            end: first,
            ..block
        },
        BLANK,
        moved,
    )
}

// The column at which a place in reading order meets a row: 0 if it lies before it, 80 if behind it. (Tests: with
// `saturating_sub` and `min` a row of a range that is filled takes 62 instructions before its cells, and with these 27.)
fn column_in(place: u16, row: u8) -> u8
    ensures { result ≡ range_start place row }
{
    let first = WIDTH * (row as u16);
    if place <= first {
        0
    } else if place - first < WIDTH {
        (place - first) as u8
    } else {
        WIDTH as u8
    }
}

// Each cell of a range becomes `word`.
fn fill_range(page: &mut [u16], from: u16, to: u16, word: u16, known: u64) -> u64
    requires { BlockFits page.old (from / 80) ((to + 79) / 80) 0 80 × (from ≤ to) }
    ensures { EditedOver (FillRange from to word) page.old page.new known result }
{
    let mut bits = known;
    let first = (from / WIDTH) as u8;
    let end = ((to + LAST) / WIDTH) as u8;
    for k in first..end {
        bits = fill_row(page, k, column_in(from, k), column_in(to, k), word, bits);
    }
    bits
}

// Each cell of a range changes by what it holds.
fn change_range(page: &mut [u16], from: u16, to: u16, change: CellChange) -> u64
    requires { BlockFits page.old (from / 80) ((to + 79) / 80) 0 80 × (from ≤ to) }
    ensures { Edited (ChangeRange from to change) page.old page.new result }
{
    let mut bits = 0;
    let first = (from / WIDTH) as u8;
    let end = ((to + LAST) / WIDTH) as u8;
    for k in first..end {
        bits |= change_row(page, k, column_in(from, k), column_in(to, k), change);
    }
    bits
}

// Each cell of a block becomes what stood at its place in another of the same size, which begins at `row` and `column`.
// The rows are written in an order in which none is read after it was written.
fn copy_rectangle(page: &mut [u16], block: Block, row: u8, column: u8) -> u64
    requires { OnPage page.old block
        × BlockFits page.old row (row + (block.end - block.top)) column (column + (block.right - block.left)) }
    ensures { Edited (CopyRectangle block.top block.end block.left block.right row column) page.old page.new result }
{
    if block.top == row {
        return slide_rows(page, block, column);
    }
    if block.top < row {
        return raise_rows(page, block, row - block.top, column, 0);
    }
    lower_rows(page, block, block.top - row, column, 0)
}

// Any edit. Each function goes by the edit's own numbers, so `rows` is there for the promise alone. `known` are the
// rows that are known to have changed: where whole rows scroll or are filled they are not compared.
pub fn change(edit: Edit, page: &mut [u16], rows: u8, known: u64) -> u64
    requires { Fits rows edit page.old }
    ensures { AppliedOver rows edit page.old page.new known result }
{
    match edit {
        Edit::Keep => known,
        Edit::Put { row, column, word } => known | put(page, row, column, word),
        Edit::InsertCells {
            row,
            column,
            end,
            count,
            word,
        } => known | insert_cells(page, row, column, end, count, word),
        Edit::DeleteCells {
            row,
            column,
            end,
            count,
        } => known | delete_cells(page, row, column, end, count),
        Edit::ScrollUp {
            top,
            end,
            left,
            right,
            count,
        } => scroll_up(page, Block::new(top, end, left, right), count, known),
        Edit::ScrollDown {
            top,
            end,
            left,
            right,
            count,
        } => scroll_down(page, Block::new(top, end, left, right), count, known),
        Edit::FillRange { from, to, word } => fill_range(page, from, to, word, known),
        Edit::ChangeRange { from, to, change } => known | change_range(page, from, to, change),
        Edit::FillRectangle {
            top,
            end,
            left,
            right,
            word,
        } => fill_rows(page, Block::new(top, end, left, right), word, known),
        Edit::ChangeRectangle {
            top,
            end,
            left,
            right,
            change,
        } => known | change_rows(page, Block::new(top, end, left, right), change),
        Edit::CopyRectangle {
            top,
            end,
            left,
            right,
            row,
            column,
        } => known | copy_rectangle(page, Block::new(top, end, left, right), row, column),
    }
}

// Applies an edit to a page of `rows` rows, and hands back `known` with the bits of the rows that it changed. Most often
// there is nothing to do; the compiler puts this test, and no more, where a byte is stepped, since `change` has another
// caller (docs/DECISIONS.md, "Shape").
pub fn apply(edit: Edit, page: &mut [u16], rows: u8, known: u64) -> u64
    requires { Fits rows edit page.old }
    ensures { AppliedOver rows edit page.old page.new known result }
{
    match edit {
        Edit::Keep => known,
        _ => change(edit, page, rows, known),
    }
}

// Blanks every cell.
pub fn clear(page: &mut [u16])
    ensures { page.new ≡ replicate (length page.old) blank }
{
    page.fill(BLANK);
}
