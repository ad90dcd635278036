// Escape sequences. An intermediate that is not there is 0.
ghost use Rattle.std.specs.Prelude.{◌≡◌};
ghost use Rattle.vt.specs.Escapes as escapes;

use crate::controls::into_gl;
use cells::{BLANK, CharSet};
use core_state::effects::{one_edit, unedited};
use core_state::fresh::{fresh_core, fresh_cursor};
use core_state::geometry::{first_row, last_row};
use core_state::{Core, Decision, Margins, Saved};
use device::charsets::Register;
use page::Edit;

// ---- ESC 7 and ESC 8

// DECSC.
fn save_cursor(mut core: Core) -> Decision
    ensures { result ≡ escapes.save_cursor core }
{
    core.saved = Saved {
        cursor: core.cursor,
        rendition: core.rendition,
        origin: core.modes.origin,
        sets: core.sets,
        protected: core.protected,
        shift: core.shift,
    };
    unedited(core)
}

// The row is held to T and B if origin is then on. Protection that was off and a shift that was none come back too.
pub fn restore_from(mut core: Core, saved: Saved) -> Core
    ensures { result ≡ escapes.restored_from core saved }
{
    core.rendition = saved.rendition;
    core.modes.origin = saved.origin;
    core.sets = saved.sets;
    core.protected = saved.protected;
    core.shift = saved.shift;
    core.cursor = saved
        .cursor
        .restore(first_row(core), last_row(core), core.modes.autowrap);
    core
}

// DECRC.
fn restore_cursor(core: Core) -> Decision
    ensures { result ≡ escapes.restore_cursor core }
{
    unedited(restore_from(core, core.saved))
}

// ---- ESC # 8 and ESC c

// DECALN: every cell plain E, margins full, cursor 1,1.
#[tactic(auto, unfolding(cells::specs::Cells::packed))]
fn align_screen(mut core: Core) -> Decision
    ensures { result ≡ escapes.align_screen core }
{
    core.margins = Margins {
        top: 1,
        bottom: core.rows,
    };
    core.cursor = fresh_cursor();
    one_edit(
        core,
        Edit::FillRange {
            from: 0,
            to: 80 * (core.rows as u16),
            word: 0x45,
        },
    )
}

// RIS: fresh, with the same R.
fn reset(core: Core) -> Decision
    ensures { result ≡ escapes.reset core }
{
    one_edit(
        fresh_core(core.rows),
        Edit::FillRange {
            from: 0,
            to: 80 * (core.rows as u16),
            word: BLANK,
        },
    )
}

// ---- reply width and sets

// S7C1T, S8C1T.
fn select_c1_transmission(mut core: Core, eightbit: bool) -> Decision
    ensures { result ≡ escapes.select_c1_transmission core eightbit }
{
    core.modes.eightbit = eightbit;
    unedited(core)
}

// The locking shifts of GR.
fn into_gr(mut core: Core, register: Register) -> Decision
    ensures { result ≡ escapes.into_gr core register }
{
    core.sets = core.sets.into_gr(register);
    unedited(core)
}

// SCS.
fn designate(mut core: Core, register: Register, set: CharSet) -> Decision
    ensures { result ≡ escapes.designate core register set }
{
    core.sets = core.sets.designate(register, set);
    unedited(core)
}

// B, 0 and %5 designate 94-sign sets.
fn designate_94(core: Core, register: Register, second: u8, last: u8) -> Decision
    ensures { result ≡ escapes.designate94 core register second last }
{
    match (second, last) {
        (0, 0x42) => designate(core, register, CharSet::Ascii),
        (0, 0x30) => designate(core, register, CharSet::SpecialGraphics),
        (0x25, 0x35) => designate(core, register, CharSet::Supplemental),
        _ => unedited(core),
    }
}

// A designates the 96-sign set.
fn designate_96(core: Core, register: Register, second: u8, last: u8) -> Decision
    ensures { result ≡ escapes.designate96 core register second last }
{
    match (second, last) {
        (0, 0x41) => designate(core, register, CharSet::Latin1),
        _ => unedited(core),
    }
}

// ---- the sequences

// With no intermediate.
fn plain_escape(core: Core, last: u8) -> Decision
    ensures { result ≡ escapes.plain_escape core last }
{
    match last {
        0x37 => save_cursor(core), // DECSC
        0x38 => restore_cursor(core), // DECRC
        0x63 => reset(core), // RIS
        0x6E => into_gl(core, Register::G2), // LS2
        0x6F => into_gl(core, Register::G3), // LS3
        0x7E => into_gr(core, Register::G1), // LS1R
        0x7D => into_gr(core, Register::G2), // LS2R
        0x7C => into_gr(core, Register::G3), // LS3R
        _ => unedited(core),
    }
}

// ESC sp F (S7C1T), ESC sp G (S8C1T).
fn space_escape(core: Core, second: u8, last: u8) -> Decision
    ensures { result ≡ escapes.space_escape core second last }
{
    match (second, last) {
        (0, 0x46) => select_c1_transmission(core, false),
        (0, 0x47) => select_c1_transmission(core, true),
        _ => unedited(core),
    }
}

// ESC # 8 (DECALN).
fn hash_escape(core: Core, second: u8, last: u8) -> Decision
    ensures { result ≡ escapes.hash_escape core second last }
{
    match (second, last) {
        (0, 0x38) => align_screen(core),
        _ => unedited(core),
    }
}

#[tactic(auto, unfolding(crate::specs::Escapes::escaped))]
pub fn escape(core: Core, first: u8, second: u8, last: u8) -> Decision
    ensures { result ≡ escapes.escaped core first second last }
{
    match first {
        0 => plain_escape(core, last),
        0x20 => space_escape(core, second, last), // S7C1T, S8C1T
        0x23 => hash_escape(core, second, last), // DECALN
        0x28 => designate_94(core, Register::G0, second, last), // SCS
        0x29 => designate_94(core, Register::G1, second, last), // SCS
        0x2A => designate_94(core, Register::G2, second, last), // SCS
        0x2B => designate_94(core, Register::G3, second, last), // SCS
        0x2D => designate_96(core, Register::G1, second, last), // SCS
        0x2E => designate_96(core, Register::G2, second, last), // SCS
        0x2F => designate_96(core, Register::G3, second, last), // SCS
        _ => unedited(core),
    }
}
