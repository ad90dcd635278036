// The pen that characters are put with while no shift is pending.
ghost use Rattle.std.specs.Prelude.{◌≡◌, ◌<◌};
ghost use Rattle.core_state.specs.Pens.{flag_bits, pen_of};

use cells::runs::Pen;
use cells::words::pack;
use cells::{Cell, CharSet, Rendition};
use device::charsets::{Sets, SingleShift, has_96};

// A word's flags, without code and set.
fn flag_bits(rendition: Rendition, protected: bool) -> u16
    ensures { (result ≡ flag_bits rendition protected) × (result < 16384) }
{
    pack(Cell {
        code: 0,
        set: CharSet::Ascii,
        rendition,
        protected,
    })
}

// The pen of a rendition, protection and sets. In a 94-sign set 20 is code 20 of set ASCII.
// (Over these three, and not over a core: while a span runs, the rendition goes on beside the core that it began with.)
pub fn pen_of(rendition: Rendition, protected: bool, sets: Sets) -> Pen
    ensures { result ≡ pen_of rendition protected sets }
{
    let flags = flag_bits(rendition, protected);
    let gl = sets.left_set(SingleShift::NoShift);
    let gr = sets.right_set();
    let left = flags + 128 * u8::from(gl) as u16;
    let right = flags + 128 * u8::from(gr) as u16;
    let space = if has_96(gl) { left } else { flags };
    let low = if space == left { 0x20 } else { 0x21 };
    Pen {
        left,
        right,
        space: space + 0x20,
        low,
    }
}
