// The cursor: its row, column and wrap due change together.
ghost use Rattle.std.specs.Prelude.{◌≡◌, ◌+◌, ◌-◌, ◌*◌, ◌≤◌, ◌<◌};
ghost use Rattle.device.specs.Cursor as moves;

use crate::tabs::Tabs;
use ground::numbers::{back, held, on};

// Row and column are counted from 1. `wrap` is "wrap due" (SCOPE 6): the last column was filled,
// and the next character goes to the next line first.
#[derive(Clone, Copy)]
pub struct Cursor {
    pub row: u8,
    pub column: u8,
    pub wrap: bool,
}

impl Cursor {
    // At a place, no wrap due.
    pub fn home(mut self, row: u8, column: u8) -> Self
        ensures { result ≡ moves.place row column }
    {
        self.row = row;
        self.column = column;
        self.wrap = false;
        self
    }

    pub fn up(self, n: u16, stop: u8) -> Self
        ensures { result ≡ moves.up self n stop }
    {
        self.home(back(self.row, n, stop), self.column)
    }

    pub fn down(self, n: u16, stop: u8) -> Self
        ensures { result ≡ moves.down self n stop }
    {
        self.home(on(self.row, n, stop), self.column)
    }

    pub fn left(self, n: u16, stop: u8) -> Self
        ensures { result ≡ moves.left self n stop }
    {
        self.home(self.row, back(self.column, n, stop))
    }

    pub fn right(self, n: u16, stop: u8) -> Self
        ensures { result ≡ moves.right self n stop }
    {
        self.home(self.row, on(self.column, n, stop))
    }

    pub fn to_column(self, column: u8) -> Self
        ensures { result ≡ moves.to_column self column }
    {
        self.home(self.row, column)
    }

    // HT: the next tab, else the last column.
    pub fn tab(self, tabs: Tabs, last: u8) -> Self
        requires { last ≤ 80 }
        ensures { result ≡ moves.tab self tabs last }
    {
        self.home(self.row, tabs.next(self.column, last))
    }

    // IND without its scroll: at the bottom margin and in the last row it stays.
    pub fn index(mut self, bottom: u8, rows: u8) -> Self
        requires { self.row ≤ rows }
        ensures { result ≡ moves.index self bottom rows }
    {
        if (self.row != bottom) & (self.row != rows) {
            self.row += 1;
        }
        self.wrap = false;
        self
    }

    // RI without its scroll.
    pub fn reverse_index(mut self, top: u8) -> Self
        requires { 1 ≤ self.row }
        ensures { result ≡ moves.reverse_index self top }
    {
        if (self.row != top) & (self.row != 1) {
            self.row -= 1;
        }
        self.wrap = false;
        self
    }

    // After a character was put: the next column, and in the last one wrap due if autowrap is on.
    pub fn advance(mut self, last: u8, autowrap: bool) -> Self
        ensures { result ≡ moves.advance self last autowrap }
    {
        if self.column < last {
            self.column += 1;
            self.wrap = false;
        } else {
            self.wrap = autowrap;
        }
        self
    }

    // A saved cursor comes back: its row is held to `top` and `bottom`.
    pub fn restore(mut self, top: u8, bottom: u8, autowrap: bool) -> Self
        ensures { result ≡ moves.restore self top bottom autowrap }
    {
        self.row = held(self.row, top, bottom);
        self.wrap &= autowrap;
        self
    }

    // How many cells stand before the cursor's, in reading order.
    pub fn offset(self) -> u16
        requires { (1 ≤ self.row) × (1 ≤ self.column) }
        ensures { result ≡ moves.offset self }
    {
        80 * (self.row as u16 - 1) + (self.column as u16 - 1)
    }
}
