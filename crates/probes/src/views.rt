// What V writes of a state, part by part.
ghost use Rattle.std.specs.Prelude.{[], ◌∷◌};
ghost use Rattle.cells.specs.Cells.{bit};
ghost use Rattle.probes.specs.Output.{Put};
ghost use Rattle.probes.specs.Views as views;

use crate::output::{put, put_bytes};
use cells::Rendition;
use core_state::{Core, Displays, LineSaved, Modes, Saved, StatusLine};
use device::charsets::Sets;
use device::cursor::Cursor;
use device::tabs::Tabs;
use ground::writing::Writer;

fn put_flag(out: &mut Writer, on: bool)
    ensures { Put out.old (bit on ∷ []) out.new }
{
    put(out, u8::from(on));
}

fn put_cursor(out: &mut Writer, cursor: Cursor)
    ensures { Put out.old (views.cursor_bytes cursor) out.new }
{
    put_bytes(out, &[cursor.row, cursor.column, u8::from(cursor.wrap)]);
}

fn put_modes(out: &mut Writer, modes: Modes)
    ensures { Put out.old (views.mode_bytes modes) out.new }
{
    let flags = [
        u8::from(modes.insert),
        u8::from(modes.newline),
        u8::from(modes.origin),
        u8::from(modes.autowrap),
        u8::from(modes.shown),
        u8::from(modes.eightbit),
        u8::from(modes.rectangle),
    ];
    put_bytes(out, &flags);
}

fn put_rendition(out: &mut Writer, rendition: Rendition)
    ensures { Put out.old (views.rendition_bytes rendition) out.new }
{
    let flags = [
        u8::from(rendition.bold),
        u8::from(rendition.underline),
        u8::from(rendition.blink),
        u8::from(rendition.reverse),
    ];
    put_bytes(out, &flags);
}

fn put_sets(out: &mut Writer, sets: Sets)
    ensures { Put out.old (views.set_bytes sets) out.new }
{
    let numbers = [
        u8::from(sets.g0),
        u8::from(sets.g1),
        u8::from(sets.g2),
        u8::from(sets.g3),
        u8::from(sets.gl),
        u8::from(sets.gr),
    ];
    put_bytes(out, &numbers);
}

fn put_saved(out: &mut Writer, saved: Saved)
    ensures { Put out.old (views.saved_bytes saved) out.new }
{
    put_cursor(out, saved.cursor);
    put_rendition(out, saved.rendition);
    put_flag(out, saved.origin);
    put_sets(out, saved.sets);
    put_flag(out, saved.protected);
    put(out, u8::from(saved.shift));
}

fn put_tabs(out: &mut Writer, tabs: Tabs)
    ensures { Put out.old tabs.flags out.new }
{
    put_bytes(out, &tabs.flags);
}

// R, the cursor, the margins, the modes.
fn put_place(out: &mut Writer, core: Core)
    ensures { Put out.old (views.place_bytes core) out.new }
{
    put(out, core.rows);
    put_cursor(out, core.cursor);
    put(out, core.margins.top);
    put(out, core.margins.bottom);
    put_modes(out, core.modes);
}

// How the next character is written.
fn put_writing(out: &mut Writer, core: Core)
    ensures { Put out.old (views.writing_bytes core) out.new }
{
    put_rendition(out, core.rendition);
    put_flag(out, core.protected);
    put_sets(out, core.sets);
    put(out, u8::from(core.shift));
}

fn put_core(out: &mut Writer, core: Core)
    ensures { Put out.old (views.core_bytes core) out.new }
{
    put_place(out, core);
    put_writing(out, core);
    put_saved(out, core.saved);
    put_tabs(out, core.tabs);
}

// Whether there is a line and whether it is active, and its cursors.
fn put_line_place(out: &mut Writer, line: StatusLine, saved: LineSaved)
    ensures { Put out.old (views.line_place_bytes line saved) out.new }
{
    let place = [
        u8::from(line.present),
        u8::from(line.active),
        line.column,
        u8::from(line.wrap),
        saved.column,
        u8::from(saved.wrap),
    ];
    put_bytes(out, &place);
}

fn put_line(out: &mut Writer, line: StatusLine)
    ensures { Put out.old (views.line_bytes line) out.new }
{
    let saved = line.saved;
    put_line_place(out, line, saved);
    put_rendition(out, saved.rendition);
    put_sets(out, saved.sets);
    put_flag(out, saved.protected);
    put(out, u8::from(saved.shift));
}

pub fn put_displays(out: &mut Writer, displays: Displays)
    ensures { Put out.old (views.view_bytes displays) out.new }
{
    put_core(out, displays.core);
    put_line(out, displays.line);
}
