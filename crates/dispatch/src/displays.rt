// What an action does to the status line beside what it does on a display.
ghost use Rattle.std.specs.Prelude.{◌≡◌};
ghost use Rattle.parser.specs.declared.parser.Action.TheVariants.{ControlSequence};
ghost use Rattle.dispatch.specs.Displays as displays;

use core_state::StatusLine;
use core_state::status::fresh_line;
use parser::families::Function;
use parser::parser::Action;

// DECSSDT: 0 no line, 1 and 2 a line.
fn select_type(mut line: StatusLine, selector: u16) -> StatusLine
    ensures { result ≡ displays.type_selected selector line }
{
    if selector <= 2 {
        line.present = selector != 0;
        line.active &= line.present;
    }
    line
}

// DECSASD: 0 the page, 1 the line if there is one.
fn select_display(mut line: StatusLine, selector: u16) -> StatusLine
    ensures { result ≡ displays.display_selected selector line }
{
    if (selector == 0) | ((selector == 1) & line.present) {
        line.active = selector == 1;
    }
    line
}

fn select_status(line: StatusLine, last: u8, selector: u16) -> StatusLine
    ensures { result ≡ displays.status_selected last selector line }
{
    match last {
        0x7E => select_type(line, selector),
        0x7D => select_display(line, selector),
        _ => line,
    }
}

// DECSTR: back to the page, and what is saved is renewed.
fn renew_line(mut line: StatusLine) -> StatusLine
    ensures { result ≡ displays.line_renewed line }
{
    line.active = false;
    line.saved = fresh_line().saved;
    line
}

fn tell_sequence(line: StatusLine, selector: u16, function: Function) -> StatusLine
    ensures { result ≡ displays.sequence_told selector function.mark function.first function.second function.last line }
{
    if function.is_soft_reset() {
        return renew_line(line);
    }
    if function.is_dollar() {
        return select_status(line, function.last, selector);
    }
    line
}

// RIS.
fn is_full_reset(first: u8, last: u8) -> bool
    ensures { result ≡ displays.is_full_reset first last }
{
    (first == 0) & (last == 0x63)
}

fn tell_escape(line: StatusLine, first: u8, last: u8) -> StatusLine
    ensures { result ≡ displays.escape_told first last line }
{
    if is_full_reset(first, last) {
        return fresh_line();
    }
    line
}

// `selector` is the action's first parameter.
pub fn tell_line(line: StatusLine, action: Action, selector: u16) -> StatusLine
    ensures { result ≡ displays.line_told action selector line }
{
    match action {
        Action::EscapeSequence { first, last, .. } => tell_escape(line, first, last),
        Action::ControlSequence(function) => tell_sequence(line, selector, function),
        _ => line,
    }
}

// RIS, which blanks the line with the page.
pub fn resets_all(action: Action) -> bool
    ensures { result ≡ displays.resets_all action }
{
    matches!(action, Action::EscapeSequence { first, last, .. } if is_full_reset(first, last))
}

// RIS, DECSTR: they go back to the page.
pub fn leaves_line(action: Action) -> bool
    ensures { result ≡ displays.leaves_line action }
{
    match action {
        Action::EscapeSequence { first, last, .. } => is_full_reset(first, last),
        Action::ControlSequence(function) => function.is_soft_reset(),
        _ => false,
    }
}

fn tells_by_sequence(function: Function) -> bool
    ensures { result ≡ displays.tells_line (ControlSequence function) }
{
    function.is_soft_reset() | (function.is_dollar() & matches!(function.last, 0x7D | 0x7E))
}

// Whether the line is told anything.
pub fn tells_line(action: Action) -> bool
    ensures { result ≡ displays.tells_line action }
{
    match action {
        Action::EscapeSequence { first, last, .. } => is_full_reset(first, last),
        Action::ControlSequence(function) => tells_by_sequence(function),
        _ => false,
    }
}
