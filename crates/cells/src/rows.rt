// Rows of a page, or of the line, which is one.
ghost use Rattle.std.specs.Prelude.{◌≡◌, ◌+◌, ◌*◌, ◌≤◌, length};
ghost use Rattle.cells.specs.Rows.{row};

use crate::COLUMNS;

// The cells of row k, counted from 0.
pub fn row_of(page: &[u16], k: usize) -> &[u16]
    requires { 80 * k + 80 ≤ length page.now }
    ensures { result.now ≡ row page.now k }
{
    &page[COLUMNS * k..COLUMNS * k + COLUMNS]
}
