// What characters are put with.
ghost use Rattle.std.specs.Prelude.{◌≡◌};
ghost use Rattle.core_state.specs.Pens.{pen_of};

use cells::runs::Pen;
use core_state::Core;

// A core, and its pen while no shift is pending.
#[derive(Clone, Copy)]
pub struct Printer {
    pub core: Core,
    pub pen: Pen,
    ghost matched: { pen ≡ pen_of core.rendition core.protected core.sets },
}
