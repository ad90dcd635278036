// Bytes that move the cursor and make one edit at most: what they do, as cursor and edit alone. A loop that keeps the
// cursor apart from the core calls these, so each stands at one place.
ghost use Rattle.std.specs.Prelude.{◌≡◌, true};
ghost use Rattle.parser.specs.declared.parser.Parser.{Parser};
ghost use Rattle.parser.specs.Params.{param};
ghost use Rattle.parser.specs.Parser.{control_sequence};
ghost use Rattle.core_state.specs.Bounds.{Bounds};
ghost use Rattle.core_state.specs.Effects.{with_cursor, with_parser, one_edit};
ghost use Rattle.dispatch.specs.Decide.{executed};
ghost use Rattle.dispatch.specs.Touches as touches;

use crate::heard::touch_ignored;
use core_state::{Core, Decision};
use csi::erasing::{erase_characters, erase_in_display, erase_in_line};
use csi::inserting::{delete_characters, delete_lines, insert_characters, insert_lines};
use csi::moves::{cursor_down, cursor_left, cursor_position, cursor_right, cursor_up};
use device::cursor::Cursor;
use ground::numbers::or_one;
use page::Edit;
use vt::controls::{
    backspace, carriage_return, horizontal_tab, index, line_feed, next_line, reverse_index,
};

// Where the cursor goes, and the edit.
#[derive(Clone, Copy)]
pub struct Touch {
    pub cursor: Cursor,
    pub edit: Edit,
}

// Nothing: wrap due stays.
fn untouched(core: Core) -> Touch
    ensures { result ≡ touches.untouched core }
{
    Touch {
        cursor: core.cursor,
        edit: Edit::Keep,
    }
}

// What is left of a decision, with no wrap due.
fn narrow(decision: Decision) -> Touch
    ensures { result ≡ touches.narrowed decision }
{
    let mut cursor = decision.core.cursor;
    cursor.wrap = false;
    Touch {
        cursor,
        edit: decision.first,
    }
}

// ---- control sequences, with no mark and no intermediate

// One arm for each final: with alternatives in one arm control sequences take some 5 % more instructions.
pub fn is_touch(last: u8) -> bool
    ensures { result ≡ touches.is_touch last }
{
    match last {
        0x40 => true, // ICH
        0x41 => true, // CUU
        0x42 => true, // CUD
        0x43 => true, // CUF
        0x44 => true, // CUB
        0x48 => true, // CUP
        0x4A => true, // ED
        0x4B => true, // EL
        0x4C => true, // IL
        0x4D => true, // DL
        0x50 => true, // DCH
        0x58 => true, // ECH
        0x66 => true, // HVP
        _ => false,
    }
}

// What it does if it is not ignored. Each arm narrows, so that the compiler drops what is not used of its decision.
fn heard_touch(core: Core, first: u16, second: u16, last: u8) -> Touch
    requires { Bounds core }
    ensures { result ≡ touches.narrowed (touches.touch_decided core first second last) }
{
    let n = or_one(first);
    match last {
        0x40 => narrow(insert_characters(core, n)), // ICH
        0x41 => narrow(cursor_up(core, n)), // CUU
        0x42 => narrow(cursor_down(core, n)), // CUD
        0x43 => narrow(cursor_right(core, n)), // CUF
        0x44 => narrow(cursor_left(core, n)), // CUB
        0x4A => narrow(erase_in_display(core, first)), // ED
        0x4B => narrow(erase_in_line(core, first)), // EL
        0x4C => narrow(insert_lines(core, n)), // IL
        0x4D => narrow(delete_lines(core, n)), // DL
        0x50 => narrow(delete_characters(core, n)), // DCH
        0x58 => narrow(erase_characters(core, n)), // ECH
        _ => narrow(cursor_position(core, first, second)), // CUP, HVP
    }
}

// What the end of a sequence does whose first two parameters these are.
pub fn sequence_touch(core: Core, first: u16, second: u16, last: u8) -> Touch
    requires { Bounds core × (touches.is_touch last ≡ true) }
    ensures { (s : Parser) → param s.params 0 ≡ first → param s.params 1 ≡ second
        → one_edit (with_cursor (with_parser core s) result.cursor) result.edit ≡ executed (with_parser core s) (control_sequence 0 0 0 last) }
{
    if touch_ignored(core, first, last) {
        return untouched(core);
    }
    heard_touch(core, first, second, last)
}

// ---- controls

// One arm for each byte, as in `is_touch`.
pub fn is_direct(byte: u8) -> bool
    ensures { result ≡ touches.is_direct byte }
{
    match byte {
        0x0E => false, // SO
        0x0F => false, // SI
        0x18 => false, // CAN
        0x1A => false, // SUB
        0x1B => false, // ESC
        0x88 => false, // HTS
        0x8E => false, // SS2
        0x8F => false, // SS3
        0x90 => false, // DCS
        0x98 => false, // SOS
        0x9A => false, // DECID
        0x9B => false, // CSI
        0x9D => false, // OSC
        0x9E => false, // PM
        0x9F => false, // APC
        _ => (byte < 0x20) | ((0x80 <= byte) & (byte <= 0x9F)),
    }
}

// What it does: those that are not listed nothing.
#[tactic(auto, unfolding(crate::specs::Decide::executed, crate::specs::WrapDue::clears_wrap, vt::specs::Controls::controlled, vt::specs::Controls::c1_controlled))]
pub fn control_touch(core: Core, byte: u8) -> Touch
    requires { Bounds core × (touches.is_direct byte ≡ true) }
    ensures { one_edit (with_cursor core result.cursor) result.edit ≡ executed core (touches.control_action byte) }
{
    match byte {
        0x08 => narrow(backspace(core)), // BS
        0x09 => narrow(horizontal_tab(core)), // HT
        0x0A | 0x0B | 0x0C => narrow(line_feed(core)), // LF, VT, FF
        0x0D => narrow(carriage_return(core)), // CR
        0x84 => narrow(index(core)), // IND
        0x85 => narrow(next_line(core)), // NEL
        0x8D => narrow(reverse_index(core)), // RI
        _ => untouched(core),
    }
}
