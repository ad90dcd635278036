// What a byte does to core and page, put together.
ghost use Rattle.std.specs.Prelude.{◌≡◌};
ghost use Rattle.device.specs.declared.charsets.SingleShift.TheVariants.{NoShift};
ghost use Rattle.core_state.specs.Effects as effects;

use crate::{Core, Decision};
use device::charsets::SingleShift;
use page::Edit;

// One step with this edit.
pub fn one_edit(core: Core, edit: Edit) -> Decision
    ensures { result ≡ effects.one_edit core edit }
{
    Decision {
        core,
        first: edit,
        second: Edit::Keep,
    }
}

// One step that leaves the page.
pub fn unedited(core: Core) -> Decision
    ensures { result ≡ effects.unedited core }
{
    Decision {
        core,
        first: Edit::Keep,
        second: Edit::Keep,
    }
}

// No shift pending: most often nothing is written.
pub fn without_shift(mut core: Core) -> Core
    ensures { result ≡ effects.with_shift core NoShift }
{
    match core.shift {
        SingleShift::NoShift => {}
        _ => core.shift = SingleShift::NoShift,
    }
    core
}
