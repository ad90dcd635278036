// One byte that is decoded: what it asks for is executed on a display, and its edits are applied.
ghost use Rattle.std.specs.Prelude.{◌≡◌};
ghost use Rattle.parser.specs.Parser.{decode};
ghost use Rattle.steps.specs.OneDisplay.{display, acts};
ghost use Rattle.steps.specs.Ready.{Paged};

use core_state::Core;
use dispatch::decide::execute;
use page::edits::apply;
use parser::parser::Decoded;

// The core after a byte, and the changed rows.
#[derive(Clone, Copy)]
pub struct AfterByte {
    pub core: Core,
    pub changed: u64,
}

// Its step or steps, after which its rows are joined to those that changed before. `byte` is there for the promise alone.
pub fn step(mut core: Core, changed: u64, byte: u8, decoded: Decoded, page: &mut [u16]) -> AfterByte
    requires { Paged core page.old × (decoded ≡ decode core.parser byte) }
    ensures { display result.core page.new result.changed ≡ acts (display core page.old changed) byte }
{
    core.parser = decoded.parser;
    let decision = execute(core, decoded.action);
    let one = apply(decision.first, page, core.rows, changed);
    AfterByte {
        core: decision.core,
        changed: apply(decision.second, page, core.rows, one),
    }
}
