// The controls: below 20 and 80 to 9F.
ghost use Rattle.std.specs.Prelude.{◌≡◌, ◌≤◌};
ghost use Rattle.core_state.specs.Bounds.{Bounds};
ghost use Rattle.core_state.specs.Geometry.{stops_of};
ghost use Rattle.vt.specs.Escapes.{into_gl};
ghost use Rattle.core_state.specs.Effects as effects;
ghost use Rattle.vt.specs.Controls as controls;

use crate::printing::index_edit;
use core_state::effects::{one_edit, unedited};
use core_state::geometry::{left_stop, right_stop, stops_of};
use core_state::{Core, Decision, Margins};
use device::charsets::{Register, SingleShift};
use device::cursor::Cursor;
use page::Edit;

// ---- lines

// IND, from a cursor.
fn index_from(mut core: Core, cursor: Cursor) -> Decision
    requires { (cursor.row ≤ core.rows) × (1 ≤ core.margins.top) }
    ensures { result ≡ controls.index_from core cursor }
{
    let edit = index_edit(core.margins, stops_of(core), cursor);
    core.cursor = cursor.index(core.margins.bottom, core.rows);
    one_edit(core, edit)
}

// IND.
pub fn index(core: Core) -> Decision
    requires { Bounds core }
    ensures { result ≡ controls.indexed core }
{
    index_from(core, core.cursor)
}

// NEL: column 1 and IND.
pub fn next_line(core: Core) -> Decision
    requires { Bounds core }
    ensures { result ≡ controls.next_lined core }
{
    index_from(core, core.cursor.to_column(left_stop(core)))
}

// LF, VT, FF: IND, and column 1 in newline mode.
pub fn line_feed(core: Core) -> Decision
    requires { Bounds core }
    ensures { result ≡ controls.line_fed core }
{
    if core.modes.newline {
        return next_line(core);
    }
    index(core)
}

// RI at the top margin: rows T to B scroll down, if there are two or more.
// (Not one with `index_edit`: both the margin and the edit differ, and a direction would choose each.)
fn reverse_index_edit(core: Core) -> Edit
    requires { 1 ≤ core.margins.top }
    ensures { result ≡ controls.reverse_index_edit core.margins (stops_of core) core.cursor }
{
    let Margins { top, bottom } = core.margins;
    if (core.cursor.row == top) & (top < bottom) {
        return Edit::ScrollDown {
            top: top - 1,
            end: bottom,
            left: left_stop(core) - 1,
            right: right_stop(core),
            count: 1,
        };
    }
    Edit::Keep
}

// RI.
pub fn reverse_index(mut core: Core) -> Decision
    requires { Bounds core }
    ensures { result ≡ controls.reverse_indexed core }
{
    let edit = reverse_index_edit(core);
    core.cursor = core.cursor.reverse_index(core.margins.top);
    one_edit(core, edit)
}

// ---- columns

// BS: left, to the left stop.
pub fn backspace(mut core: Core) -> Decision
    ensures { result ≡ controls.backspaced core }
{
    core.cursor = core.cursor.left(1, left_stop(core));
    unedited(core)
}

// HT: the next tab, else the right stop.
pub fn horizontal_tab(mut core: Core) -> Decision
    ensures { result ≡ controls.tabbed core }
{
    core.cursor = core.cursor.tab(core.tabs, right_stop(core));
    unedited(core)
}

// CR: column 1.
pub fn carriage_return(mut core: Core) -> Decision
    ensures { result ≡ controls.returned core }
{
    core.cursor = core.cursor.to_column(left_stop(core));
    unedited(core)
}

// HTS: a tab at the cursor's column.
fn set_tab(mut core: Core) -> Decision
    requires { Bounds core }
    ensures { result ≡ controls.tab_set core }
{
    core.tabs = core.tabs.set(core.cursor.column);
    unedited(core)
}

// ---- sets

// SO, SI and the locking shifts of GL.
pub fn into_gl(mut core: Core, register: Register) -> Decision
    ensures { result ≡ into_gl core register }
{
    core.sets = core.sets.into_gl(register);
    unedited(core)
}

// SS2, SS3.
fn single_shift(mut core: Core, shift: SingleShift) -> Decision
    ensures { result ≡ effects.unedited (effects.with_shift core shift) }
{
    core.shift = shift;
    unedited(core)
}

// ---- the controls

#[tactic(auto, unfolding(crate::specs::Controls::controlled))]
pub fn control(core: Core, byte: u8) -> Decision
    requires { Bounds core }
    ensures { result ≡ controls.controlled core byte }
{
    match byte {
        0x08 => backspace(core), // BS
        0x09 => horizontal_tab(core), // HT
        0x0A..=0x0C => line_feed(core), // LF, VT, FF
        0x0D => carriage_return(core), // CR
        0x0E => into_gl(core, Register::G1), // SO
        0x0F => into_gl(core, Register::G0), // SI
        _ => unedited(core),
    }
}

#[tactic(auto, unfolding(crate::specs::Controls::c1_controlled))]
pub fn c1_control(core: Core, byte: u8) -> Decision
    requires { Bounds core }
    ensures { result ≡ controls.c1_controlled core byte }
{
    match byte {
        0x84 => index(core), // IND
        0x85 => next_line(core), // NEL
        0x88 => set_tab(core), // HTS
        0x8D => reverse_index(core), // RI
        0x8E => single_shift(core, SingleShift::Ss2), // SS2
        0x8F => single_shift(core, SingleShift::Ss3), // SS3
        _ => unedited(core),
    }
}
