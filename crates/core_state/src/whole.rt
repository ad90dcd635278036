// Whether a state is whole.
ghost use Rattle.std.specs.Prelude.{◌≡◌};
ghost use Rattle.ground.specs.Tests.{all};
ghost use Rattle.core_state.specs.Whole as whole;

use crate::{Core, StatusLine};
use ground::tests::between;
use parser::whole::is_whole_parser;

pub fn is_sized(rows: u8) -> bool
    ensures { result ≡ whole.sized rows }
{
    matches!(rows, 24 | 36 | 48)
}

fn is_whole_screen(core: Core) -> bool
    ensures { result ≡ all (whole.core_tests core) }
{
    let cursor = core.cursor;
    let margins = core.margins;
    let saved = core.saved.cursor;
    let rows = core.rows;
    is_sized(rows)
        & between(1, cursor.row, rows)
        & between(1, cursor.column, 80)
        & ((1 <= margins.top) & (margins.top < margins.bottom) & (margins.bottom <= rows))
        & (!cursor.wrap | ((cursor.column == 80) & core.modes.autowrap))
        & (!core.modes.origin | between(margins.top, cursor.row, margins.bottom))
        & between(1, saved.row, rows)
        & between(1, saved.column, 80)
        & (!saved.wrap | (saved.column == 80))
}

#[tactic(auto, unfolding(crate::specs::Whole::whole_core))]
pub fn is_whole(core: Core) -> bool
    ensures { result ≡ whole.whole_core core }
{
    is_whole_screen(core) & is_whole_parser(core.parser)
}

// Of the line, where autowrap is so.
pub fn is_whole_line(line: StatusLine, autowrap: bool) -> bool
    ensures { result ≡ all (whole.line_tests line autowrap) }
{
    let kept = line.saved;
    between(1, line.column, 80)
        & (!line.wrap | ((line.column == 80) & autowrap))
        & between(1, kept.column, 80)
        & (!kept.wrap | (kept.column == 80))
        & (!line.active | line.present)
}
