// Characters where they are just put: in ground, with no shift pending and no wrap due.
ghost use Rattle.std.specs.Prelude.{◌≡◌, ◌+◌, ◌<◌, ◌≤◌, true, false, ◌&&◌, length, nat_lt, slice_index};
ghost use Rattle.ground.specs.Tests as tests;
ghost use Rattle.cells.specs.Runs.{is_character};
ghost use Rattle.core_state.specs.Effects.{with_cursor};
ghost use Rattle.spans.specs.Spans.{Spanned, ByteDone};
ghost use Rattle.spans.specs.Characters.{Direct, advance_by};

use crate::printer::Printer;
use cells::COLUMNS;
use cells::marks::row_bit;
use cells::runs::{pen_word, put_characters};
use core_state::geometry::right_stop;
use device::cursor::Cursor;
use ground::tests::between;
use page::Edit;
use page::edits::{change, put};
use page::rows::place;

// Where the cursor went, the changed rows, and the place of the next byte.
#[derive(Clone, Copy)]
pub struct Characters {
    pub cursor: Cursor,
    pub changed: u64,
    pub next: usize,
}

// Where one byte's cursor went, and the changed rows.
#[derive(Clone, Copy)]
pub struct Moved {
    pub cursor: Cursor,
    pub changed: u64,
}

// ---- one

// In insert mode the cells from the cursor move right one.
fn put_one(printer: Printer, changed: u64, byte: u8, page: &mut [u16]) -> Moved
    requires { Direct printer.core page.old × (is_character byte ≡ true) }
    ensures { ByteDone printer.core changed page.old byte (with_cursor printer.core result.cursor) result.changed page.new }
{
    let Printer { core, pen } = printer;
    let word = pen_word(pen, byte);
    let row = core.cursor.row - 1;
    let column = core.cursor.column - 1;
    let last = right_stop(core);
    let next = core.cursor.advance(last, core.modes.autowrap);
    if core.modes.insert {
        let edit = Edit::InsertCells {
            row,
            column,
            end: last,
            count: 1,
            word,
        };
        return Moved {
            cursor: next,
            changed: change(edit, page, core.rows, changed),
        };
    }
    Moved {
        cursor: next,
        changed: changed | put(page, row, column, word),
    }
}

// ---- as many as have room in the row

fn advance_by(mut cursor: Cursor, count: usize, autowrap: bool) -> Cursor
    requires { cursor.column + count ≤ 81 }
    ensures { result ≡ advance_by cursor count autowrap }
{
    let next = cursor.column as usize + count;
    cursor.column = next.min(COLUMNS) as u8;
    cursor.wrap = autowrap & (COLUMNS < next);
    cursor
}

fn put_row(
    printer: Printer,
    changed: u64,
    page: &mut [u16],
    input: &[u8],
    from: usize,
) -> Characters
    requires { Direct printer.core page.old × (printer.core.modes.insert ≡ false) × (from ≤ length input.now) }
    ensures { Spanned printer.core changed page.old input.now from result.next
        (with_cursor printer.core result.cursor) result.changed page.new }
{
    let Printer { core, pen } = printer;
    let row = core.cursor.row - 1;
    let column = core.cursor.column - 1;
    let most = (input.len() - from).min(COLUMNS - column as usize);
    let done = put_characters(page, place(row, column), most, input, from, pen);
    Characters {
        cursor: advance_by(core.cursor, done.count, core.modes.autowrap),
        changed: changed | row_bit(row, done.changed),
        next: from + done.count,
    }
}

// ---- the first by itself, which is faster where it is the only one

fn plain_at(input: &[u8], at: usize) -> bool
    ensures { result ≡ (nat_lt at (length input.now) && tests.between 0x20 (slice_index input.now at) 0x7E) }
{
    input.get(at).is_some_and(|&byte| between(0x20, byte, 0x7E))
}

// Whether more are to be put in the row.
fn goes_on(insert: bool, cursor: Cursor, input: &[u8], at: usize) -> bool
    ensures { result ≡ true → (insert ≡ false) × (cursor.column < 80) × (at < length input.now) }
{
    if insert | (80 <= cursor.column) {
        return false;
    }
    plain_at(input, at)
}

pub fn put_some(
    printer: Printer,
    changed: u64,
    page: &mut [u16],
    input: &[u8],
    from: usize,
) -> Characters
    requires { Direct printer.core page.old × (from < length input.now) × (is_character (slice_index input.now from) ≡ true) }
    ensures { Spanned printer.core changed page.old input.now from result.next
        (with_cursor printer.core result.cursor) result.changed page.new × (from < result.next) }
{
    let first = put_one(printer, changed, input[from], page);
    let next = from + 1;
    if goes_on(printer.core.modes.insert, first.cursor, input, next) {
        // Copied here alone: a `mut` parameter is copied for the first one too.
        let mut printer = printer;
        printer.core.cursor = first.cursor;
        return put_row(printer, first.changed, page, input, next);
    }
    Characters {
        cursor: first.cursor,
        changed: first.changed,
        next,
    }
}
