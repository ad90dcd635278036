// The page as text: a line for each row, trailing spaces off, in UTF-8.
#![tactic(auto)]

mod lines;
mod signs;
mod utf8;

ghost use Rattle.std.specs.Prelude.{◌≡◌, ◌≤◌, length};
ghost use Rattle.text.specs.Text.{page_text, written_number, written};
ghost use Rattle.ground.specs.Writes.{Wrote};

use crate::lines::{line_len, write_line};
use cells::rows::row_of;
use ground::writing::Writer;
use std::error::Error;
use std::fmt;

// The buffer is too small for the text, and is left as it was.
#[derive(Clone, Copy, Debug, PartialEq, Eq)]
pub struct TooSmall;

impl fmt::Display for TooSmall {
    ghost use Rattle.std.specs.Prelude.{Some};
    ghost use Rattle.text.specs.Text.{too_small_words};

    ghost output = { λ _. Some too_small_words };

    fn fmt<W: fmt::Write>(&self, f: &mut fmt::Formatter<W>) -> fmt::Result {
        f.write_str("the buffer is too small for the text")
    }
}

impl Error for TooSmall {}

// How many bytes the text of a page takes. Cells past its last whole row do not count.
pub fn text_len(page: &[u16]) -> usize
    ensures { result ≡ length (page_text page.now) }
{
    let mut len = 0;
    for k in 0..page.len() / 80 {
        len += line_len(row_of(page, k));
    }
    len
}

// Writes the text of a page at the front of a buffer that holds it, and returns the place after it.
fn write_rows(page: &[u16], out: &mut [u8]) -> usize
    requires { length (page_text page.now) ≤ length out.old }
    ensures { Wrote out.old 0 (page_text page.now) out.new result }
{
    let mut writer = Writer { bytes: out, len: 0 };
    for k in 0..page.len() / 80 {
        write_line(row_of(page, k), &mut writer);
    }
    writer.len
}

// Writes the text of a page into a buffer, whole or not at all, and returns how many bytes it takes.
pub fn write_text(page: &[u16], out: &mut [u8]) -> Result<usize, TooSmall>
    ensures { record { number = written_number result; result = result; buffer = out.new } ≡ written page.now out.old }
{
    if out.len() < text_len(page) {
        return Err(TooSmall);
    }
    Ok(write_rows(page, out))
}
