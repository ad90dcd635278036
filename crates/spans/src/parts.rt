// Bytes that move the cursor, the rendition, the parser and cells alone, one after the other: these parts of the core are kept apart
// from it, so that it goes through no byte.
ghost use Rattle.std.specs.Prelude.{◌≡◌, ◌≤◌, true, length};
ghost use Rattle.parser.specs.declared.phases.Phase.TheVariants.{Ground};
ghost use Rattle.parser.specs.Parser.{in_phase};
ghost use Rattle.core_state.specs.Effects.{with_cursor, with_parser};
ghost use Rattle.dispatch.specs.Touches.{is_touch};
ghost use Rattle.steps.specs.Ready.{Paged};
ghost use Rattle.spans.specs.Spans.{Spanned, ByteDone};
ghost use Rattle.spans.specs.Parts as whole;

use crate::characters::Moved;
use crate::direct::{act_directly, acts_directly};
use crate::printer::Printer;
use cells::Rendition;
use core_state::Core;
use core_state::pens::pen_of;
use csi::modes::rendition_after;
use device::cursor::Cursor;
use dispatch::touches::{is_touch, sequence_touch};
use idle::skip_idle;
use page::edits::apply;
use parser::parser::Parser;
use parser::phases::{Phase, takes_parameters};

// The parts after such bytes, the changed rows, and the place of the next byte.
#[derive(Clone, Copy)]
pub struct Parts {
    pub cursor: Cursor,
    pub rendition: Rendition,
    pub parser: Parser,
    pub changed: u64,
    pub next: usize,
}

// SGR.
const SGR: u8 = 0x6D;

fn with_parts(mut core: Core, parts: Parts) -> Core
    ensures { result ≡ whole.with_parts core parts.cursor parts.rendition parts.parser }
{
    core.cursor = parts.cursor;
    core.rendition = parts.rendition;
    core.parser = parts.parser;
    core
}

// Before the end of a control sequence with no mark and no intermediate.
fn in_plain_sequence(parser: Parser) -> bool
    ensures { result ≡ whole.in_plain_sequence parser }
{
    takes_parameters(parser.phase) & (parser.mark == 0)
}

// The end of a control sequence that moves the cursor and cells.
fn sequence_step(core: Core, changed: u64, last: u8, page: &mut [u16]) -> Moved
    requires { Paged core page.old × (whole.in_plain_sequence core.parser ≡ true) × (is_touch last ≡ true) }
    ensures { ByteDone core changed page.old last
        (with_cursor (with_parser core (in_phase Ground core.parser)) result.cursor) result.changed page.new }
{
    let params = core.parser.params;
    let touch = sequence_touch(core, params.get(0), params.get(1), last);
    Moved {
        cursor: touch.cursor,
        changed: apply(touch.edit, page, core.rows, changed),
    }
}

// As many as there are from here on. A while, since they are done many at a time.
pub fn feed_parts(core: Core, changed: u64, page: &mut [u16], input: &[u8], from: usize) -> Parts
    requires { Paged core page.old × (from ≤ length input.now) }
    ensures { Spanned core changed page.old input.now from result.next
        (whole.with_parts core result.cursor result.rendition result.parser) result.changed page.new }
{
    let mut parts = Parts {
        cursor: core.cursor,
        rendition: core.rendition,
        parser: core.parser,
        changed,
        next: from,
    };
    let mut pen = pen_of(core.rendition, core.protected, core.sets);
    while parts.next < input.len() {
        let printer = Printer {
            core: with_parts(core, parts),
            pen,
        };
        if acts_directly(printer.core, input[parts.next]) {
            let done = act_directly(printer, parts.changed, page, input, parts.next);
            parts.cursor = done.cursor;
            parts.changed = done.changed;
            parts.next = done.next;
        } else {
            let idle = skip_idle(parts.parser, input, parts.next);
            parts.parser = idle.parser;
            parts.next = idle.next;
            if parts.next < input.len() {
                let last = input[parts.next];
                if !in_plain_sequence(parts.parser) {
                    return parts;
                }
                if is_touch(last) {
                    let done = sequence_step(with_parts(core, parts), parts.changed, last, page);
                    parts.cursor = done.cursor;
                    parts.changed = done.changed;
                } else if last == SGR {
                    let next = rendition_after(parts.rendition, parts.parser.params);
                    pen = pen_of(next, core.protected, core.sets);
                    parts.rendition = next;
                } else {
                    return parts;
                }
                parts.parser = parts.parser.in_phase(Phase::Ground);
                parts.next += 1;
            }
        }
    }
    parts
}
