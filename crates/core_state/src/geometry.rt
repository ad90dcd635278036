// Where the cursor stops and where it goes home. Columns and rows are counted from 1.
ghost use Rattle.std.specs.Prelude.{◌≡◌};
ghost use Rattle.core_state.specs.Geometry as geometry;

use crate::Core;
use device::cursor::Cursor;

// ---- columns: printing, moves, tabs, inserts and scrolls keep between these

#[derive(Clone, Copy)]
pub struct Stops {
    pub left: u8,
    pub right: u8,
}

pub fn left_stop(core: Core) -> u8
    ensures { result ≡ geometry.left_stop core }
{
    1
}

pub fn right_stop(core: Core) -> u8
    ensures { result ≡ geometry.right_stop core }
{
    80
}

pub fn stops_of(core: Core) -> Stops
    ensures { result ≡ geometry.stops_of core }
{
    Stops {
        left: left_stop(core),
        right: right_stop(core),
    }
}

// ---- rows

// Where CUU stops: at T if not already above it, else at the page's edge.
pub fn top_stop(core: Core) -> u8
    ensures { result ≡ geometry.top_stop core }
{
    let top = core.margins.top;
    if top <= core.cursor.row { top } else { 1 }
}

// Where CUD stops.
pub fn bottom_stop(core: Core) -> u8
    ensures { result ≡ geometry.bottom_stop core }
{
    let bottom = core.margins.bottom;
    if core.cursor.row <= bottom {
        bottom
    } else {
        core.rows
    }
}

// The row that positions count as 1: T with origin on.
pub fn first_row(core: Core) -> u8
    ensures { result ≡ geometry.first_row core }
{
    if core.modes.origin {
        core.margins.top
    } else {
        1
    }
}

// The last row of a position: B with origin on.
pub fn last_row(core: Core) -> u8
    ensures { result ≡ geometry.last_row core }
{
    if core.modes.origin {
        core.margins.bottom
    } else {
        core.rows
    }
}

// ---- home

pub fn home(core: Core) -> Cursor
    ensures { result ≡ geometry.home core }
{
    core.cursor.home(first_row(core), 1)
}
