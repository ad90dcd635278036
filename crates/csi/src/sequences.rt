// Control sequences: one guard on mark and intermediates, then the final byte.
ghost use Rattle.std.specs.Prelude.{◌≡◌, true};
ghost use Rattle.parser.specs.Families.{is_plain};
ghost use Rattle.core_state.specs.Bounds.{Bounds};
ghost use Rattle.csi.specs.Sequences as sequences;

use crate::erasing::{
    erase_characters, erase_in_display, erase_in_line, selective_erase_in_display,
    selective_erase_in_line,
};
use crate::inserting::{delete_characters, delete_lines, insert_characters, insert_lines};
use crate::modes::{
    clear_tabs, select_graphic_rendition, select_protection, set_ansi_modes, set_dec_modes,
    set_margins, soft_reset,
};
use crate::moves::{cursor_down, cursor_left, cursor_position, cursor_right, cursor_up};
use core_state::effects::{one_edit, unedited};
use core_state::{Core, Decision};
use parser::families::Function;
use parser::params::Params;
use rectangles::functions::{rectangle_edit, select_extent};

// With no mark and no intermediate, one arm for each final. DECSTBM comes with margins that are taken.
fn plain_sequence(core: Core, params: Params, last: u8) -> Decision
    requires { Bounds core × (last ≡ 0x72 → sequences.margins_taken core params ≡ true) }
    ensures { result ≡ sequences.plain_sequence core params last }
{
    match last {
        0x40 => insert_characters(core, params.n()), // ICH
        0x41 => cursor_up(core, params.n()), // CUU
        0x42 => cursor_down(core, params.n()), // CUD
        0x43 => cursor_right(core, params.n()), // CUF
        0x44 => cursor_left(core, params.n()), // CUB
        0x48 => cursor_position(core, params.get(0), params.get(1)), // CUP
        0x4A => erase_in_display(core, params.get(0)), // ED
        0x4B => erase_in_line(core, params.get(0)), // EL
        0x4C => insert_lines(core, params.n()), // IL
        0x4D => delete_lines(core, params.n()), // DL
        0x50 => delete_characters(core, params.n()), // DCH
        0x58 => erase_characters(core, params.n()), // ECH
        0x66 => cursor_position(core, params.get(0), params.get(1)), // HVP
        0x67 => clear_tabs(core, params), // TBC
        0x68 => set_ansi_modes(core, params, true), // SM
        0x6C => set_ansi_modes(core, params, false), // RM
        0x6D => select_graphic_rendition(core, params), // SGR
        0x72 => set_margins(core, params), // DECSTBM
        _ => unedited(core),
    }
}

// With the mark ?.
fn private_sequence(core: Core, params: Params, last: u8) -> Decision
    requires { Bounds core }
    ensures { result ≡ sequences.private_sequence core params last }
{
    match last {
        0x4A => selective_erase_in_display(core, params.get(0)), // DECSED
        0x4B => selective_erase_in_line(core, params.get(0)), // DECSEL
        0x68 => set_dec_modes(core, params, true), // SM
        0x6C => set_dec_modes(core, params, false), // RM
        _ => unedited(core),
    }
}

#[tactic(auto, unfolding(crate::specs::Sequences::sequenced))]
pub fn sequence(core: Core, params: Params, function: Function) -> Decision
    requires { Bounds core × (is_plain function.mark function.first function.second ≡ true → function.last ≡ 0x72 → sequences.margins_taken core params ≡ true) }
    ensures { result ≡ sequences.sequenced core params function.mark function.first function.second function.last }
{
    if function.is_plain() {
        return plain_sequence(core, params, function.last);
    }
    if function.is_private() {
        return private_sequence(core, params, function.last);
    }
    if function.is_protection() {
        return select_protection(core, params);
    }
    if function.is_soft_reset() {
        return unedited(soft_reset(core));
    }
    if function.is_dollar() {
        return one_edit(core, rectangle_edit(core, params, function.last));
    }
    if function.is_extent() {
        return select_extent(core, params);
    }
    unedited(core)
}
