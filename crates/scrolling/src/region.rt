// Rows of a page that scroll.
ghost use Rattle.std.specs.Prelude.{◌≡◌, ◌-◌, ◌*◌, ◌≤◌, ◌<◌, length};
ghost use Rattle.page.specs.declared.Edit.TheVariants.{ScrollUp};
ghost use Rattle.page.specs.Edits.{applied};

use page::Edit;
use page::edits::change;

// Rows `top` to `end` of a page of `rows` rows.
#[derive(Clone, Copy)]
pub struct Region {
    pub rows: u8,
    pub top: u8,
    pub end: u8,
    ghost some: { top < end },
    ghost inside: { end ≤ rows },
    ghost few: { rows ≤ 64 },
}

impl Region {
    // The rows go up by `count`. Those in `known` are not compared; the caller knows that all of them are there.
    pub fn scroll_up(self, page: &mut [u16], count: u8, known: u64)
        requires { (length page.old ≡ 80 * self.rows) × (count ≤ self.end - self.top) }
        ensures { page.new ≡ applied self.rows (ScrollUp self.top self.end 0 80 count) page.old }
    {
        let Region { rows, top, end } = self;
        let _ = change(
            Edit::ScrollUp {
                top,
                end,
                left: 0,
                right: 80,
                count,
            },
            page,
            rows,
            known,
        );
    }
}
