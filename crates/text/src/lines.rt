// The line of a row: its signs without the spaces at the end, in UTF-8, closed by 0A.
ghost use Rattle.std.specs.Prelude.{map, ◌≡◌, length};
ghost use Rattle.text.specs.Text.{sign, trimmed, encoded, line};
ghost use Rattle.ground.specs.Writes.{Room, Appended};

use crate::signs::sign;
use crate::utf8::{utf8_len, write_utf8};
use ground::writing::Writer;

// The cells of a row without the spaces at its end.
fn trimmed(row: &[u16]) -> &[u16]
    ensures { map sign result.now ≡ trimmed (map sign row.now) }
{
    let mut left = row;
    while let [rest @ .., last] = left {
        if sign(*last) != 0x20 {
            return left;
        }
        left = rest;
    }
    left
}

// How many bytes the signs of some cells take.
fn signs_len(cells: &[u16]) -> usize
    ensures { result ≡ length (encoded (map sign cells.now)) }
{
    let mut len = 0;
    for word in cells {
        len += utf8_len(sign(*word));
    }
    len
}

// Writes the signs of some cells.
fn write_signs(cells: &[u16], out: &mut Writer)
    requires { Room out.old (length (encoded (map sign cells.now))) }
    ensures { Appended out.old (encoded (map sign cells.now)) out.new }
{
    for word in cells {
        write_utf8(out, sign(*word));
    }
}

// How many bytes the line of a row takes.
pub fn line_len(row: &[u16]) -> usize
    ensures { result ≡ length (line row.now) }
{
    signs_len(trimmed(row)) + 1
}

// Writes the line of a row.
pub fn write_line(row: &[u16], out: &mut Writer)
    requires { Room out.old (length (line row.now)) }
    ensures { Appended out.old (line row.now) out.new }
{
    write_signs(trimmed(row), out);
    out.byte(0x0A);
}
