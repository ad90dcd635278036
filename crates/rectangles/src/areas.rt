// The area that four parameters name.
ghost use Rattle.std.specs.Prelude.{◌≡◌, ◌≤◌};
ghost use Rattle.rectangles.specs.Areas as areas;

use cells::COLUMNS;
use core_state::Core;
use core_state::geometry::first_row;
use ground::numbers::{capped, on};
use parser::params::Params;

// The page's last column.
pub const LAST: u8 = COLUMNS as u8;

// Rows and columns count from 1, and the edges are inside.
#[derive(Clone, Copy)]
pub struct Area {
    pub top: u8,
    pub left: u8,
    pub bottom: u8,
    pub right: u8,
}

// An edge of 0 is the page's own; others count from T with origin on, held to the page.
pub fn row_edge(core: Core, edge: u16, own: u8) -> u8
    ensures { result ≡ areas.row_edge core edge own }
{
    if edge == 0 {
        return own;
    }
    on(first_row(core), edge - 1, core.rows)
}

pub fn column_edge(edge: u16, own: u8) -> u8
    ensures { result ≡ areas.column_edge edge own }
{
    if edge == 0 {
        return own;
    }
    capped(edge, LAST)
}

// The area of the four parameters from `at` on.
#[tactic(auto, unfolding(crate::specs::Areas::area_at))]
pub fn area_at(core: Core, params: Params, at: u8) -> Area
    requires { at ≤ 1 }
    ensures { result ≡ areas.area_at core params at }
{
    Area {
        top: row_edge(core, params.get(at), 1),
        left: column_edge(params.get(at + 1), 1),
        bottom: row_edge(core, params.get(at + 2), core.rows),
        right: column_edge(params.get(at + 3), LAST),
    }
}

// A top below the bottom or a left past the right is ignored.
pub fn is_taken(area: Area) -> bool
    ensures { result ≡ areas.is_taken area }
{
    (area.top <= area.bottom) & (area.left <= area.right)
}
