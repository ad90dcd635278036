// Printing: a byte 20 to 7F or A0 to FF, and SUB.
ghost use Rattle.std.specs.Prelude.{◌≡◌, ◌≤◌};
ghost use Rattle.core_state.specs.Bounds.{Bounds};
ghost use Rattle.core_state.specs.Geometry.{stops_of};
ghost use Rattle.vt.specs.Printing as printing;

use cells::CharSet;
use core_state::effects::{unedited, without_shift};
use core_state::geometry::{Stops, left_stop, right_stop, stops_of};
use core_state::glyphs::{cell_word, glyph, skipped, used_set};
use core_state::{Core, Decision, Margins};
use device::cursor::Cursor;
use page::Edit;

// ---- the edits, with the cursor at a place

// IND at the bottom margin: rows T to B scroll up, if there are two or more.
pub fn index_edit(margins: Margins, stops: Stops, cursor: Cursor) -> Edit
    requires { (1 ≤ margins.top) × (1 ≤ stops.left) }
    ensures { result ≡ printing.index_edit margins stops cursor }
{
    let Margins { top, bottom } = margins;
    if (cursor.row == bottom) & (top < bottom) {
        return Edit::ScrollUp {
            top: top - 1,
            end: bottom,
            left: stops.left - 1,
            right: stops.right,
            count: 1,
        };
    }
    Edit::Keep
}

// The cell is put; in insert mode the cells from the cursor move right one.
fn put_edit(core: Core, cursor: Cursor, word: u16) -> Edit
    requires { (1 ≤ cursor.row) × (1 ≤ cursor.column) }
    ensures { result ≡ printing.put_edit core.modes.insert (stops_of core) cursor word }
{
    let row = cursor.row - 1;
    let column = cursor.column - 1;
    if core.modes.insert {
        return Edit::InsertCells {
            row,
            column,
            end: right_stop(core),
            count: 1,
            word,
        };
    }
    Edit::Put { row, column, word }
}

// ---- the printing rule

// Where the cursor goes, and the edits.
#[derive(Clone, Copy)]
pub struct Printed {
    pub cursor: Cursor,
    pub first: Edit,
    pub second: Edit,
}

// Where the character goes: with wrap due, to the first column of the next line.
fn print_place(core: Core) -> Cursor
    requires { core.cursor.row ≤ core.rows }
    ensures { result ≡ printing.print_place core.cursor core.margins core.rows (stops_of core) }
{
    if core.cursor.wrap {
        let start = core.cursor.to_column(left_stop(core));
        return start.index(core.margins.bottom, core.rows);
    }
    core.cursor
}

fn print_word(core: Core, word: u16) -> Printed
    requires { Bounds core }
    ensures { result ≡ printing.print_word core word }
{
    let place = print_place(core);
    let put = put_edit(core, place, word);
    let cursor = place.advance(right_stop(core), core.modes.autowrap);
    if core.cursor.wrap {
        let start = core.cursor.to_column(left_stop(core));
        return Printed {
            cursor,
            first: index_edit(core.margins, stops_of(core), start),
            second: put,
        };
    }
    Printed {
        cursor,
        first: put,
        second: Edit::Keep,
    }
}

// The cursor and the edits are put into the core. (A function that calls both would be too long for the
// compiler to put into its two callers, and the core would go through memory.)
fn printed_in(mut core: Core, printed: Printed) -> Decision
    ensures { result ≡ printing.printed_in core printed }
{
    core.cursor = printed.cursor;
    Decision {
        core,
        first: printed.first,
        second: printed.second,
    }
}

// ---- a byte 20 to 7F or A0 to FF, and SUB

#[tactic(auto, unfolding(crate::specs::Printing::printed, crate::specs::Printing::put))]
pub fn print(core: Core, byte: u8) -> Decision
    requires { Bounds core }
    ensures { result ≡ printing.printed core byte }
{
    let set = used_set(core.sets, core.shift, byte);
    let next = without_shift(core);
    if skipped(set, byte) {
        return unedited(core);
    }
    printed_in(next, print_word(next, glyph(core, byte)))
}

// SUB: code 1A of ASCII. It uses no set, and a pending shift stays.
#[tactic(auto, unfolding(crate::specs::Printing::substituted, crate::specs::Printing::put))]
pub fn substitute(core: Core) -> Decision
    requires { Bounds core }
    ensures { result ≡ printing.substituted core }
{
    let word = cell_word(core, 0x1A, CharSet::Ascii);
    printed_in(core, print_word(core, word))
}
