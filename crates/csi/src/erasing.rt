// Control sequences that erase. Margins don't matter.
ghost use Rattle.std.specs.Prelude.{◌≡◌, ℕ, ◌+◌, ◌≤◌, if◌then◌else◌, nat_eq};
ghost use Rattle.core_state.specs.Bounds.{Bounds};
ghost use Rattle.core_state.specs.Effects as effects;
ghost use Rattle.device.specs.Cursor.{offset};
ghost use Rattle.page.specs.declared.Edit.{Edit};
ghost use Rattle.csi.specs.Sequences as sequences;

use cells::{BLANK, CellChange};
use core_state::effects::one_edit;
use core_state::{Core, Decision};
use device::cursor::Cursor;
use ground::numbers::capped;
use page::Edit;
use std::ops::Range;

// The cells from `base` to `end` that a selector names: 0 from the cursor's on, 1 up to it, 2 all.
fn selected(cursor: Cursor, selector: u16, base: u16, end: u16) -> Range<u16>
    requires { (1 ≤ cursor.row) × (1 ≤ cursor.column) }
    ensures { (result.start ≡ (if nat_eq selector 0 then offset cursor else base)) × (result.end ≡ (if nat_eq selector 1 then offset cursor + 1 else end)) }
{
    let at = cursor.offset();
    let from = if selector == 0 { at } else { base };
    let to = if selector == 1 { at + 1 } else { end };
    from..to
}

// Those of the page.
fn in_page(core: Core, selector: u16) -> Range<u16>
    requires { Bounds core }
    ensures { (edit : ℕ → ℕ → Edit) → sequences.in_page core selector edit ≡ effects.one_edit core (edit result.start result.end) }
{
    selected(core.cursor, selector, 0, 80 * (core.rows as u16))
}

// Those of the cursor's row.
fn in_row(core: Core, selector: u16) -> Range<u16>
    requires { Bounds core }
    ensures { (edit : ℕ → ℕ → Edit) → sequences.in_row core selector edit ≡ effects.one_edit core (edit result.start result.end) }
{
    let base = 80 * (core.cursor.row as u16 - 1);
    selected(core.cursor, selector, base, base + 80)
}

// The cells become blank.
fn to_blank(cells: Range<u16>) -> Edit
    ensures { result ≡ sequences.to_blank cells.start cells.end }
{
    Edit::FillRange {
        from: cells.start,
        to: cells.end,
        word: BLANK,
    }
}

// The same, but protected cells stay, and the others keep their flags.
fn to_space(cells: Range<u16>) -> Edit
    ensures { result ≡ sequences.to_space cells.start cells.end }
{
    Edit::ChangeRange {
        from: cells.start,
        to: cells.end,
        change: CellChange::SelectiveErase,
    }
}

// ED.
pub fn erase_in_display(core: Core, selector: u16) -> Decision
    requires { Bounds core }
    ensures { result ≡ sequences.in_page core selector sequences.to_blank }
{
    one_edit(core, to_blank(in_page(core, selector)))
}

// EL.
pub fn erase_in_line(core: Core, selector: u16) -> Decision
    requires { Bounds core }
    ensures { result ≡ sequences.in_row core selector sequences.to_blank }
{
    one_edit(core, to_blank(in_row(core, selector)))
}

// DECSED.
pub fn selective_erase_in_display(core: Core, selector: u16) -> Decision
    requires { Bounds core }
    ensures { result ≡ sequences.in_page core selector sequences.to_space }
{
    one_edit(core, to_space(in_page(core, selector)))
}

// DECSEL.
pub fn selective_erase_in_line(core: Core, selector: u16) -> Decision
    requires { Bounds core }
    ensures { result ≡ sequences.in_row core selector sequences.to_space }
{
    one_edit(core, to_space(in_row(core, selector)))
}

// ECH: n cells in the row.
pub fn erase_characters(core: Core, n: u16) -> Decision
    requires { Bounds core }
    ensures { result ≡ sequences.erase_characters core n }
{
    let from = core.cursor.offset();
    let count = capped(n, 81 - core.cursor.column);
    one_edit(core, to_blank(from..from + count as u16))
}
