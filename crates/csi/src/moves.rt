// Control sequences that move the cursor.
ghost use Rattle.std.specs.Prelude.{◌≡◌, ◌≤◌};
ghost use Rattle.csi.specs.Sequences as sequences;

use core_state::effects::unedited;
use core_state::geometry::{bottom_stop, first_row, last_row, left_stop, right_stop, top_stop};
use core_state::{Core, Decision};
use ground::numbers::{capped, on, or_one};

// CUU.
pub fn cursor_up(mut core: Core, n: u16) -> Decision
    ensures { result ≡ sequences.cursor_up core n }
{
    core.cursor = core.cursor.up(n, top_stop(core));
    unedited(core)
}

// CUD.
pub fn cursor_down(mut core: Core, n: u16) -> Decision
    ensures { result ≡ sequences.cursor_down core n }
{
    core.cursor = core.cursor.down(n, bottom_stop(core));
    unedited(core)
}

// CUF.
pub fn cursor_right(mut core: Core, n: u16) -> Decision
    ensures { result ≡ sequences.cursor_right core n }
{
    core.cursor = core.cursor.right(n, right_stop(core));
    unedited(core)
}

// CUB.
pub fn cursor_left(mut core: Core, n: u16) -> Decision
    ensures { result ≡ sequences.cursor_left core n }
{
    core.cursor = core.cursor.left(n, left_stop(core));
    unedited(core)
}

// The row of a position: held to the page; with origin on row 1 is T, held to B.
fn row_at(core: Core, row: u16) -> u8
    requires { 1 ≤ row }
    ensures { result ≡ sequences.row_at core row }
{
    on(first_row(core), row - 1, last_row(core))
}

// CUP, HVP: row and column, 0 as 1.
pub fn cursor_position(mut core: Core, row: u16, column: u16) -> Decision
    ensures { result ≡ sequences.cursor_position core row column }
{
    let row = row_at(core, or_one(row));
    let column = capped(or_one(column), right_stop(core));
    core.cursor = core.cursor.home(row, column);
    unedited(core)
}
