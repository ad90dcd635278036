// Text ahead, in blocks.
ghost use Rattle.std.specs.Prelude.{◌≡◌, true, ◌≤◌, length, take};
ghost use Rattle.scrolling.specs.Text.{is_text, all_text, feeds_of};

pub const LF: u8 = 0x0A;

pub const CR: u8 = 0x0D;

// Bytes that a block has.
const BLOCK: usize = 16;

// Text, and how many line feeds it has.
#[derive(Clone, Copy)]
pub struct Ahead<'a> {
    pub text: &'a [u8],
    pub feeds: u8,
    ghost plain: { all_text text.now ≡ true },
    ghost counted: { feeds ≡ feeds_of text.now },
}

fn is_text(byte: u8) -> bool
    ensures { result ≡ is_text byte }
{
    ((0x20 <= byte) & (byte <= 0x7E)) | ((byte == LF) | (byte == CR))
}

// Whether a block is text. No early exit, so that all bytes are tested at once: `all` has one.
fn text_block(block: &[u8]) -> bool
    ensures { result ≡ all_text block.now }
{
    let mut text = true;
    for &byte in block {
        text &= is_text(byte);
    }
    text
}

// The line feeds of a block.
fn feeds_in(block: &[u8]) -> u8
    requires { length block.now ≤ 16 }
    ensures { (result ≤ 16) × (result ≡ feeds_of block.now) }
{
    let mut feeds = 0;
    for &byte in block {
        feeds += u8::from(byte == LF);
    }
    feeds
}

// As many blocks of text as come, with at most so many line feeds.
pub fn lines_ahead(input: &[u8], most: u8) -> Ahead<'_>
    requires { most ≤ 64 }
    ensures few { result.feeds ≤ most }
    ensures first { result.text.now ≡ take (length result.text.now) input.now }
{
    let mut feeds = 0;
    let mut len = 0;
    for block in input.chunks_exact(BLOCK) {
        if !text_block(block) {
            break;
        }
        let more = feeds_in(block);
        if most < feeds + more {
            break;
        }
        feeds += more;
        len += BLOCK;
    }
    Ahead {
        text: &input[..len],
        feeds,
    }
}
