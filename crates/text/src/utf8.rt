// UTF-8, of the code points below 10000.
ghost use Rattle.std.specs.Prelude.{◌≡◌, length};
ghost use Rattle.text.specs.Text.{utf8};
ghost use Rattle.ground.specs.Writes.{Room, Appended};

use ground::writing::Writer;

// How many bytes a code point takes.
pub fn utf8_len(code: u16) -> usize
    ensures { result ≡ length (utf8 code) }
{
    match code {
        0..0x80 => 1,
        0x80..0x800 => 2,
        _ => 3,
    }
}

// Writes a code point.
pub fn write_utf8(out: &mut Writer, code: u16)
    requires { Room out.old (length (utf8 code)) }
    ensures { Appended out.old (utf8 code) out.new }
{
    match code {
        0..0x80 => out.byte(code as u8),
        0x80..0x800 => {
            out.byte((0xC0 + code / 64) as u8);
            out.byte((0x80 + code % 64) as u8);
        }
        _ => {
            out.byte((0xE0 + code / 4096) as u8);
            out.byte((0x80 + code / 64 % 64) as u8);
            out.byte((0x80 + code % 64) as u8);
        }
    }
}
