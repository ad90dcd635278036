// Lines of text at the bottom margin: several scrolls done as one, where all rows that scroll are known to have changed.
#![tactic(auto)]

ghost use Rattle.std.specs.Prelude.{◌≡◌, cond, ◌+◌, ◌-◌, ◌≤◌, ◌<◌, min};
ghost use Rattle.page.specs.declared.Edit.TheVariants.{ScrollUp};
ghost use Rattle.page.specs.Edits.{applied};
ghost use Rattle.scrolling.specs.Lines.{lines_over, written_over, all_known, LinesWritten, LinesFit};

pub mod ahead;
pub mod region;

use crate::ahead::{Ahead, CR, LF};
use crate::region::Region;
use cells::COLUMNS;
use cells::runs::{Pen, put_characters};
use ground::numbers::pick;
use page::rows::place;

// Whether rows `top` to `end` are all in a set.
pub fn all_known(known: u64, top: u8, end: u8) -> bool
    requires { (top ≤ end) × (end < 64) }
    ensures { result ≡ all_known known top (end - top) }
{
    let rows = (1u64 << (end - top)) - 1;
    (known >> top) & rows == rows
}

// The column after `count` characters: the last one stays.
fn column_after(column: u8, count: usize) -> u8
    requires { count ≤ 80 }
    ensures { result ≡ min (column + count) 80 }
{
    (column as usize + count).min(COLUMNS) as u8
}

// Text into the region's rows, from as many rows above its last as there are line feeds, and from this column on: the column after it.
fn write_lines(
    page: &mut [u16],
    region: Region,
    column: u8,
    newline: bool,
    ahead: Ahead<'_>,
    pen: Pen,
) -> u8
    requires { LinesFit region page.old column pen ahead }
    ensures { LinesWritten (written_over region.rows newline pen
        (record { page = page.old; row = region.end - 1 - ahead.entry.feeds; column = column }) ahead.entry.text.now) page.new result }
{
    let mut row = region.end - 1 - ahead.feeds;
    let mut column = column;
    let mut rest = ahead.text;
    while let Some((&byte, after)) = rest.split_first() {
        match byte {
            LF => {
                row += 1;
                column = pick(newline, 1, column);
                rest = after;
            }
            CR => {
                column = 1;
                rest = after;
            }
            _ => {
                let most = rest.len().min(81 - column as usize);
                let put = put_characters(page, place(row, column - 1), most, rest, 0, pen);
                column = column_after(column, put.count);
                rest = &rest[put.count..];
            }
        }
    }
    column
}

// A line feed in the region's last row, and the text that follows it: one scroll by all line feeds, and each line into the row
// where it ends up. `known` are rows that are known to have changed. The column after it.
pub fn scroll_lines(
    page: &mut [u16],
    region: Region,
    column: u8,
    newline: bool,
    ahead: Ahead<'_>,
    pen: Pen,
    known: u64,
) -> u8
    requires { LinesFit region page.old column pen ahead }
    ensures { record { page = page.new; column = result } ≡ lines_over region.rows region.top region.end newline pen
        (record { page = applied region.rows (ScrollUp region.top region.end 0 80 1) page.old; column = cond newline 1 column })
        ahead.entry.text.now }
{
    region.scroll_up(page, ahead.feeds + 1, known);
    write_lines(page, region, pick(newline, 1, column), newline, ahead, pen)
}
