// Bytes on one display, the page or the line as a page of one row.
ghost use Rattle.steps.specs.Ready.{Paged};
ghost use Rattle.feeding.specs.Runs.{Ran};

use core_state::Core;
use dispatch::events::interrupts;
use spans::parts::feed_parts;
use steps::byte::step;

// The core after bytes, the changed rows, whether autowrap was on all along, and how many were read.
#[derive(Clone, Copy)]
pub struct Run {
    pub core: Core,
    pub changed: u64,
    pub lasting: bool,
    pub read: usize,
}

// The first byte, whatever it is, and those after it up to one that may draw a reply or tell the line something: bytes that move
// parts of the core alone, then one of any kind. A while, since such bytes are done many at a time.
pub fn feed_display(core: Core, changed: u64, page: &mut [u16], input: &[u8]) -> Run
    requires { Paged core page.old }
    ensures { Ran core changed page.old input.now result page.new }
{
    let mut core = core;
    let mut changed = changed;
    let mut lasting = core.modes.autowrap;
    let mut i = 0;
    while i < input.len() {
        let done = feed_parts(core, changed, page, input, i);
        core.cursor = done.cursor;
        core.rendition = done.rendition;
        core.parser = done.parser;
        changed = done.changed;
        i = done.next;
        if i < input.len() {
            let byte = input[i];
            if interrupts(done.parser.phase, byte) & (i != 0) {
                return Run {
                    core,
                    changed,
                    lasting,
                    read: i,
                };
            }
            let after = step(core, changed, byte, done.parser.decode(byte), page);
            core = after.core;
            changed = after.changed;
            lasting &= core.modes.autowrap;
            i += 1;
        }
    }
    Run {
        core,
        changed,
        lasting,
        read: i,
    }
}
