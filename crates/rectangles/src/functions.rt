// The functions on rectangles. Each is one step, and of the core only DECSACE changes anything.
ghost use Rattle.std.specs.Prelude.{◌≡◌, if◌then◌else◌};
ghost use Rattle.rectangles.specs.Functions as functions;

use crate::areas::{Area, LAST, area_at, column_edge, is_taken, row_edge};
use crate::attributes::restyling_of;
use cells::{BLANK, COLUMNS, CellChange, Styling};
use core_state::effects::{unedited, without_shift};
use core_state::glyphs::{glyph, skipped, used_set};
use core_state::{Core, Decision};
use device::charsets::SingleShift;
use ground::numbers::{on, pick};
use page::Edit;
use parser::params::Params;

const WIDTH: u16 = COLUMNS as u16;

// ---- erase and fill

// Each cell of an area becomes `word`.
fn fill(area: Area, word: u16) -> Edit
    ensures { result ≡ functions.filled area word }
{
    Edit::FillRectangle {
        top: area.top.saturating_sub(1),
        end: area.bottom,
        left: area.left.saturating_sub(1),
        right: area.right,
        word,
    }
}

// A byte of GL or GR.
fn is_graphic(byte: u8) -> bool
    ensures { result ≡ functions.is_graphic byte }
{
    matches!(byte, 0x20..=0x7F | 0xA0..=0xFF)
}

// The byte that a code is, if printing puts it into a cell, without a shift.
fn printed(core: Core, code: u16) -> Option<u8>
    ensures { result ≡ (if functions.is_printed core code then Some code else None) }
{
    let byte = u8::try_from(code).ok()?;
    let skips = skipped(used_set(core.sets, SingleShift::NoShift, byte), byte);
    if is_graphic(byte) & !skips {
        Some(byte)
    } else {
        None
    }
}

// DECFRA: the cells are as printing would put them. A pending shift stays.
fn fill_rectangle(core: Core, params: Params, area: Area) -> Edit
    ensures { result ≡ functions.fill_rectangle core params area }
{
    match printed(core, params.get(0)) {
        Some(byte) => fill(area, glyph(without_shift(core), byte)),
        None => Edit::Keep,
    }
}

// ---- cells that change by what they hold

// (The edges as in `fill`: a function for both, which takes the edit of four edges, is longer than the two.)
fn change(area: Area, change: CellChange) -> Edit
    ensures { result ≡ functions.changed area change }
{
    Edit::ChangeRectangle {
        top: area.top.saturating_sub(1),
        end: area.bottom,
        left: area.left.saturating_sub(1),
        right: area.right,
        change,
    }
}

// From the area's first cell to its last, in reading order.
fn change_stream(area: Area, change: CellChange) -> Edit
    ensures { result ≡ functions.changed_stream area change }
{
    let top = area.top.saturating_sub(1);
    let bottom = area.bottom.saturating_sub(1);
    let left = area.left.saturating_sub(1);
    Edit::ChangeRange {
        from: WIDTH * (top as u16) + left as u16,
        to: WIDTH * (bottom as u16) + area.right as u16,
        change,
    }
}

// The extent decides between the two.
fn restyle(rectangle: bool, area: Area, styling: Styling) -> Edit
    ensures { result ≡ functions.restyled rectangle area styling }
{
    let restyle = CellChange::Restyle {
        styling: u8::from(styling),
    };
    if rectangle {
        return change(area, restyle);
    }
    change_stream(area, restyle)
}

// DECCARA and DECRARA, by what their list makes of the attributes. Where no value is one of the function's, it is ignored.
fn change_attributes(rectangle: bool, area: Area, styling: Option<Styling>) -> Edit
    ensures { result ≡ functions.if_styled rectangle area styling }
{
    match styling {
        Some(styling) => restyle(rectangle, area, styling),
        None => Edit::Keep,
    }
}

// DECSACE: 0 and 1 stream, 2 rectangle.
pub fn select_extent(mut core: Core, params: Params) -> Decision
    ensures { result ≡ functions.select_extent core params }
{
    match params.get(0) {
        0 | 1 => core.modes.rectangle = false,
        2 => core.modes.rectangle = true,
        _ => {}
    }
    unedited(core)
}

// ---- copy

// An area to another place, cut off at the page's edge.
fn copy(rows: u8, area: Area, top: u8, left: u8) -> Edit
    ensures { result ≡ functions.copied rows area top left }
{
    let down = area.bottom.saturating_sub(area.top);
    let across = area.right.saturating_sub(area.left);
    Edit::CopyRectangle {
        top: top.saturating_sub(1),
        end: on(top, down as u16, rows),
        left: left.saturating_sub(1),
        right: on(left, across as u16, LAST),
        row: area.top.saturating_sub(1),
        column: area.left.saturating_sub(1),
    }
}

// DECCRA: both pages must be 0 or 1.
fn copy_rectangle(core: Core, params: Params, area: Area) -> Edit
    ensures { result ≡ functions.copy_rectangle core params area }
{
    if (params.get(4) <= 1) & (params.get(7) <= 1) {
        let top = row_edge(core, params.get(5), 1);
        let left = column_edge(params.get(6), 1);
        return copy(core.rows, area, top, left);
    }
    Edit::Keep
}

// ---- by the final byte

// In an area that is taken.
fn edit_in(core: Core, params: Params, area: Area, last: u8) -> Edit
    ensures { result ≡ functions.edit_in core params area last }
{
    let rectangle = core.modes.rectangle;
    match last {
        0x72 => change_attributes(rectangle, area, restyling_of(false, params)), // DECCARA
        0x74 => change_attributes(rectangle, area, restyling_of(true, params)), // DECRARA
        0x76 => copy_rectangle(core, params, area), // DECCRA
        0x78 => fill_rectangle(core, params, area), // DECFRA
        0x7A => fill(area, BLANK), // DECERA
        0x7B => change(area, CellChange::SelectiveErase), // DECSERA
        _ => Edit::Keep,
    }
}

// The edges come first, but for a fill's, which come after its code.
pub fn rectangle_edit(core: Core, params: Params, last: u8) -> Edit
    ensures { result ≡ functions.rectangle_edit core params last }
{
    let area = area_at(core, params, pick(last == 0x78, 1, 0));
    if is_taken(area) {
        return edit_in(core, params, area, last);
    }
    Edit::Keep
}
