// Control sequences for tabs, modes, rendition, protection and margins, and the soft reset.
ghost use Rattle.std.specs.Prelude.{◌≡◌, true, false, ◌||◌, if◌then◌else◌, nat_eq, nat_lt};
ghost use Rattle.ground.specs.Folds.{folded};
ghost use Rattle.parser.specs.Params.{param_list, numbers};
ghost use Rattle.core_state.specs.Bounds.{Bounds};
ghost use Rattle.core_state.specs.StatusLine.{is_line};
ghost use Rattle.csi.specs.Sequences as sequences;

use cells::Rendition;
use core_state::effects::unedited;
use core_state::fresh::{fresh_core, fresh_modes, plain_rendition};
use core_state::geometry::home;
use core_state::status::is_line;
use core_state::{Core, Decision, Margins, Modes};
use ground::numbers::capped;
use parser::params::Params;

// TBC: 0 the tab here, 3 all.
pub fn clear_tabs(mut core: Core, params: Params) -> Decision
    requires { Bounds core }
    ensures { result ≡ sequences.clear_tabs core params }
{
    match params.get(0) {
        0 => core.tabs = core.tabs.clear(core.cursor.column),
        3 => core.tabs = core.tabs.clear_all(),
        _ => {}
    }
    unedited(core)
}

// ---- modes

// 4 insert (IRM), 20 newline (LNM).
fn ansi_mode(mut core: Core, value: u16, on: bool) -> Core
    ensures { result ≡ sequences.ansi_mode on core value }
{
    match value {
        4 => core.modes.insert = on,
        20 => core.modes.newline = on,
        _ => {}
    }
    core
}

// DECOM: cursor home, with origin as it now is.
fn origin_mode(mut core: Core, on: bool) -> Core
    ensures { result ≡ sequences.origin_mode on core }
{
    core.modes.origin = on;
    core.cursor = home(core);
    core
}

// The status line ignores it.
fn page_origin_mode(core: Core, on: bool) -> Core
    ensures { result ≡ (if is_line core then core else sequences.origin_mode on core) }
{
    if is_line(core) {
        return core;
    }
    origin_mode(core, on)
}

// 6 origin, 7 autowrap (DECAWM), 25 cursor shown (DECTCEM).
fn dec_mode(mut core: Core, value: u16, on: bool) -> Core
    ensures { result ≡ sequences.dec_mode on core value }
{
    match value {
        6 => return page_origin_mode(core, on),
        7 => core.modes.autowrap = on,
        25 => core.modes.shown = on,
        _ => {}
    }
    core
}

// SM, RM: all parameters in order.
pub fn set_ansi_modes(mut core: Core, params: Params, on: bool) -> Decision
    ensures { result ≡ sequences.modes_set false on core params }
{
    let values = &params.values[..params.count() as usize];
    for value in values {
        core = ansi_mode(core, *value, on);
    }
    unedited(core)
}

// The same with ?.
pub fn set_dec_modes(mut core: Core, params: Params, on: bool) -> Decision
    ensures { result ≡ sequences.modes_set true on core params }
{
    let values = &params.values[..params.count() as usize];
    for value in values {
        core = dec_mode(core, *value, on);
    }
    unedited(core)
}

// ---- rendition and protection

// One value of SGR.
#[tactic(auto, unfolding(crate::specs::Sequences::rendered))]
fn render(mut rendition: Rendition, value: u16) -> Rendition
    ensures { result ≡ sequences.rendered rendition value }
{
    match value {
        0 => rendition = plain_rendition(),
        1 => rendition.bold = true,
        4 => rendition.underline = true,
        5 => rendition.blink = true,
        7 => rendition.reverse = true,
        22 => rendition.bold = false,
        24 => rendition.underline = false,
        25 => rendition.blink = false,
        27 => rendition.reverse = false,
        _ => {}
    }
    rendition
}

// All parameters in order.
pub fn rendition_after(mut rendition: Rendition, params: Params) -> Rendition
    ensures { result ≡ folded sequences.rendered rendition (numbers (param_list params)) }
{
    let values = &params.values[..params.count() as usize];
    for value in values {
        rendition = render(rendition, *value);
    }
    rendition
}

// SGR.
pub fn select_graphic_rendition(mut core: Core, params: Params) -> Decision
    ensures { result ≡ sequences.select_rendition core params }
{
    core.rendition = rendition_after(core.rendition, params);
    unedited(core)
}

// DECSCA: 1 protects, 0 and 2 don't.
pub fn select_protection(mut core: Core, params: Params) -> Decision
    ensures { result ≡ sequences.select_protection core params }
{
    match params.get(0) {
        1 => core.protected = true,
        0 | 2 => core.protected = false,
        _ => {}
    }
    unedited(core)
}

// ---- margins

// The bottom that is requested: 0 or above R is R.
fn requested_bottom(rows: u8, requested: u16) -> u8
    ensures { result ≡ (if nat_eq requested 0 || nat_lt rows requested then rows else requested) }
{
    match requested {
        0 => rows,
        _ => capped(requested, rows),
    }
}

// Margins are taken if the top is above the bottom.
pub fn margins_taken(core: Core, params: Params) -> bool
    ensures { result ≡ sequences.margins_taken core params }
{
    let bottom = requested_bottom(core.rows, params.get(1));
    params.n() < bottom as u16
}

// DECSTBM, where the margins are taken: then cursor home, with the new ones.
pub fn set_margins(mut core: Core, params: Params) -> Decision
    requires { sequences.margins_taken core params ≡ true }
    ensures { result ≡ sequences.set_margins core params }
{
    let bottom = requested_bottom(core.rows, params.get(1));
    let top = params.n() as u8;
    core.margins = Margins { top, bottom };
    core.cursor = home(core);
    unedited(core)
}

// ---- DECSTR: cursor, tabs, newline, reply width and extent stay

#[tactic(auto, unfolding(crate::specs::Sequences::soft_reset, core_state::specs::Fresh::fresh_core))]
pub fn soft_reset(core: Core) -> Core
    ensures { result ≡ sequences.soft_reset core }
{
    Core {
        cursor: core.cursor,
        tabs: core.tabs,
        modes: Modes {
            newline: core.modes.newline,
            eightbit: core.modes.eightbit,
            rectangle: core.modes.rectangle,
            ..fresh_modes()
        },
        parser: core.parser,
        ..fresh_core(core.rows)
    }
}
