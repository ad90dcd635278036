// Bytes in ground that move the cursor and cells alone: characters, lines of text, controls.
ghost use Rattle.std.specs.Prelude.{◌≡◌, ◌<◌, true, length, slice_index};
ghost use Rattle.parser.specs.declared.phases.Phase.TheVariants.{Ground};
ghost use Rattle.core_state.specs.Bounds.{Bounds};
ghost use Rattle.core_state.specs.Effects.{with_cursor};
ghost use Rattle.dispatch.specs.Touches.{is_direct};
ghost use Rattle.steps.specs.Ready.{Paged};
ghost use Rattle.spans.specs.Spans.{Spanned, ByteDone};
ghost use Rattle.spans.specs.Characters.{is_unshifted};
ghost use Rattle.spans.specs.Direct.{acts_directly, scrolls_lines};

use crate::characters::{Characters, Moved, put_some};
use crate::printer::Printer;
use cells::runs::is_character;
use core_state::Core;
use core_state::geometry::{left_stop, right_stop};
use core_state::glyphs::{is_edge, skipped, used_set};
use device::charsets::SingleShift;
use dispatch::touches::{control_touch, is_direct};
use page::edits::apply;
use parser::phases::is_ground;
use scrolling::ahead::lines_ahead;
use scrolling::region::Region;
use scrolling::{all_known, scroll_lines};

const HT: u8 = 0x09;

const LF: u8 = 0x0A;

const CR: u8 = 0x0D;

const ESC: u8 = 0x1B;

fn is_unshifted(shift: SingleShift) -> bool
    ensures { result ≡ is_unshifted shift }
{
    matches!(shift, SingleShift::NoShift)
}

// A character with no shift pending and no wrap due, one that is ignored, or a control. ESC is none, and is told first: it is what
// most often follows.
pub fn acts_directly(core: Core, byte: u8) -> bool
    ensures { result ≡ acts_directly core byte }
{
    if byte == ESC {
        return false;
    }
    if !is_ground(core.parser.phase) {
        return false;
    }
    if is_character(byte) {
        return is_unshifted(core.shift) & !core.cursor.wrap;
    }
    if is_edge(byte) {
        return skipped(used_set(core.sets, core.shift, byte), byte);
    }
    is_direct(byte)
}

// A control that moves the cursor, or does nothing.
fn control_step(core: Core, changed: u64, byte: u8, page: &mut [u16]) -> Moved
    requires { Paged core page.old × (core.parser.phase ≡ Ground) × (is_direct byte ≡ true) }
    ensures { ByteDone core changed page.old byte (with_cursor core result.cursor) result.changed page.new }
{
    let touch = control_touch(core, byte);
    Moved {
        cursor: touch.cursor,
        changed: apply(touch.edit, page, core.rows, changed),
    }
}

// ---- lines of text, where the rows that scroll are all known to have changed

fn scrolls_lines(core: Core, changed: u64) -> bool
    requires { Bounds core }
    ensures { result ≡ scrolls_lines core changed }
{
    let margins = core.margins;
    if core.cursor.row != margins.bottom {
        return false;
    }
    if core.modes.insert | core.modes.autowrap {
        return false;
    }
    if !is_unshifted(core.shift) | (margins.bottom <= margins.top) {
        return false;
    }
    all_known(changed, margins.top - 1, margins.bottom)
}

fn feed_lines(
    printer: Printer,
    changed: u64,
    page: &mut [u16],
    input: &[u8],
    from: usize,
) -> Characters
    requires { Paged printer.core page.old × (printer.core.parser.phase ≡ Ground) × (scrolls_lines printer.core changed ≡ true)
        × (from < length input.now) × (slice_index input.now from ≡ 0x0A) }
    ensures { Spanned printer.core changed page.old input.now from result.next
        (with_cursor printer.core result.cursor) result.changed page.new × (from < result.next) }
{
    let Printer { core, pen } = printer;
    let margins = core.margins;
    let region = Region {
        rows: core.rows,
        top: margins.top - 1,
        end: margins.bottom,
    };
    let ahead = lines_ahead(&input[from + 1..], margins.bottom - margins.top - 1);
    let column = scroll_lines(
        page,
        region,
        core.cursor.column,
        core.modes.newline,
        ahead,
        pen,
        changed,
    );
    Characters {
        cursor: core.cursor.to_column(column),
        changed,
        next: from + 1 + ahead.text.len(),
    }
}

pub fn act_directly(
    printer: Printer,
    changed: u64,
    page: &mut [u16],
    input: &[u8],
    from: usize,
) -> Characters
    requires { Paged printer.core page.old × (from < length input.now)
        × (acts_directly printer.core (slice_index input.now from) ≡ true) }
    ensures { Spanned printer.core changed page.old input.now from result.next
        (with_cursor printer.core result.cursor) result.changed page.new × (from < result.next) }
{
    let core = printer.core;
    let byte = input[from];
    if is_character(byte) {
        return put_some(printer, changed, page, input, from);
    }
    if byte == LF && scrolls_lines(core, changed) {
        return feed_lines(printer, changed, page, input, from);
    }
    let next = from + 1;
    if byte == CR {
        return Characters {
            cursor: core.cursor.to_column(left_stop(core)),
            changed,
            next,
        };
    }
    if byte == HT {
        return Characters {
            cursor: core.cursor.tab(core.tabs, right_stop(core)),
            changed,
            next,
        };
    }
    if is_edge(byte) {
        return Characters {
            cursor: core.cursor,
            changed,
            next,
        };
    }
    let done = control_step(core, changed, byte, page);
    Characters {
        cursor: done.cursor,
        changed: done.changed,
        next,
    }
}
