// The cell that a byte puts: its set, its code, and the rendition and protection of now.
ghost use Rattle.std.specs.Prelude.{◌≡◌, if◌then◌else◌, nat_lt};
ghost use Rattle.device.specs.Charsets.{left_set, right_set};
ghost use Rattle.core_state.specs.Glyphs as glyphs;

use crate::Core;
use cells::words::pack;
use cells::{Cell, CharSet};
use device::charsets::{Sets, SingleShift, has_96};

// The cell takes code, set, rendition and protection.
pub fn cell_word(core: Core, code: u8, set: CharSet) -> u16
    ensures { result ≡ glyphs.cell_word core code set }
{
    pack(Cell {
        code,
        set,
        rendition: core.rendition,
        protected: core.protected,
    })
}

// The set that a byte uses.
pub fn used_set(sets: Sets, shift: SingleShift, byte: u8) -> CharSet
    ensures { result ≡ (if nat_lt byte 0x80 then left_set sets shift else right_set sets) }
{
    if byte < 0x80 {
        return sets.left_set(shift);
    }
    sets.right_set()
}

// Signs of a 96-sign set alone: 7F, A0 and FF.
pub fn is_edge(byte: u8) -> bool
    ensures { result ≡ glyphs.is_edge byte }
{
    matches!(byte, 0x7F | 0xA0 | 0xFF)
}

// In a 94-sign set they are ignored.
pub fn skipped(set: CharSet, byte: u8) -> bool
    ensures { result ≡ glyphs.skipped set byte }
{
    !has_96(set) & is_edge(byte)
}

// In a 94-sign set 20 is code 20 of set ASCII.
fn shown_set(set: CharSet, byte: u8) -> CharSet
    ensures { result ≡ glyphs.shown_set set byte }
{
    if !has_96(set) & (byte == 0x20) {
        return CharSet::Ascii;
    }
    set
}

// The word of the cell that a byte puts.
pub fn glyph(core: Core, byte: u8) -> u16
    ensures { result ≡ glyphs.glyph core byte }
{
    let set = used_set(core.sets, core.shift, byte);
    cell_word(core, byte % 128, shown_set(set, byte))
}
