// Control sequences that insert and delete rows and cells. Outside T to B they are ignored before they come here.
ghost use Rattle.std.specs.Prelude.{◌≡◌, ◌-◌, ◌≤◌, min};
ghost use Rattle.core_state.specs.Bounds.{Bounds};
ghost use Rattle.core_state.specs.Effects.{one_edit, with_cursor};
ghost use Rattle.core_state.specs.Geometry.{left_stop, right_stop};
ghost use Rattle.device.specs.Cursor.{to_column};
ghost use Rattle.page.specs.declared.Edit.{Edit};
ghost use Rattle.csi.specs.Sequences as sequences;

use cells::BLANK;
use core_state::effects::one_edit;
use core_state::geometry::{right_stop, stops_of};
use core_state::{Core, Decision};
use ground::numbers::capped;
use page::Edit;

// How many rows there are from the cursor's to B.
fn rows_below(core: Core) -> u8
    requires { 1 ≤ core.cursor.row }
    ensures { result ≡ sequences.rows_below core }
{
    core.margins.bottom.saturating_sub(core.cursor.row - 1)
}

// How many cells there are from the cursor's to the right stop.
fn cells_right(core: Core) -> u8
    requires { Bounds core }
    ensures { result ≡ sequences.cells_right core }
{
    right_stop(core) - (core.cursor.column - 1)
}

// The edit of the rows from the cursor's to B between the stops, which go by n of them; and column 1.
fn move_lines<F: Fn(u8, u8, u8, u8, u8) -> Edit>(mut core: Core, n: u16, edit: F) -> Decision
    requires bounds { Bounds core }
    requires callable { F.IsAlwaysCallable edit }
    ensures { (e : Edit)
        × F.post edit (core.cursor.row - 1) core.margins.bottom (left_stop core - 1) (right_stop core) (min n (sequences.rows_below core)) e
        × (result ≡ one_edit (with_cursor core (to_column core.cursor (left_stop core))) e) }
{
    let stops = stops_of(core);
    let edit = edit(
        core.cursor.row - 1,
        core.margins.bottom,
        stops.left - 1,
        stops.right,
        capped(n, rows_below(core)),
    );
    core.cursor = core.cursor.to_column(stops.left);
    one_edit(core, edit)
}

// The edit of the cells from the cursor's to the right stop, which go by n of them.
fn move_characters<F: Fn(u8, u8, u8, u8) -> Edit>(core: Core, n: u16, edit: F) -> Decision
    requires bounds { Bounds core }
    requires callable { F.IsAlwaysCallable edit }
    ensures { (e : Edit)
        × F.post edit (core.cursor.row - 1) (core.cursor.column - 1) (right_stop core) (min n (sequences.cells_right core)) e
        × (result ≡ one_edit core e) }
{
    let edit = edit(
        core.cursor.row - 1,
        core.cursor.column - 1,
        right_stop(core),
        capped(n, cells_right(core)),
    );
    one_edit(core, edit)
}

// IL: n rows, and column 1.
pub fn insert_lines(core: Core, n: u16) -> Decision
    requires { Bounds core }
    ensures { result ≡ sequences.insert_lines core n }
{
    move_lines(
        core,
        n,
        |top, end, left, right, count| Edit::ScrollDown {
            top,
            end,
            left,
            right,
            count,
        },
    )
}

// DL.
pub fn delete_lines(core: Core, n: u16) -> Decision
    requires { Bounds core }
    ensures { result ≡ sequences.delete_lines core n }
{
    move_lines(
        core,
        n,
        |top, end, left, right, count| Edit::ScrollUp {
            top,
            end,
            left,
            right,
            count,
        },
    )
}

// ICH: n cells.
pub fn insert_characters(core: Core, n: u16) -> Decision
    requires { Bounds core }
    ensures { result ≡ sequences.insert_characters core n }
{
    move_characters(
        core,
        n,
        |row, column, end, count| Edit::InsertCells {
            row,
            column,
            end,
            count,
            word: BLANK,
        },
    )
}

// DCH.
pub fn delete_characters(core: Core, n: u16) -> Decision
    requires { Bounds core }
    ensures { result ≡ sequences.delete_characters core n }
{
    move_characters(
        core,
        n,
        |row, column, end, count| Edit::DeleteCells {
            row,
            column,
            end,
            count,
        },
    )
}
