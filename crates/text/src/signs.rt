// The sign that a cell shows, as a code point.
ghost use Rattle.std.specs.Prelude.{◌≡◌, ◌<◌, get_or};
ghost use Rattle.text.specs.Text.{line_drawing, shown_code, graphic_sign, sign};

// Special Graphics codes 5F to 7E.
const LINE_DRAWING: [u16; 32] = [
    0x00A0, // 5F
    0x25C6, // 60
    0x2592, // 61
    0x2409, // 62
    0x240C, // 63
    0x240D, // 64
    0x240A, // 65
    0x00B0, // 66
    0x00B1, // 67
    0x2424, // 68
    0x240B, // 69
    0x2518, // 6A
    0x2510, // 6B
    0x250C, // 6C
    0x2514, // 6D
    0x253C, // 6E
    0x23BA, // 6F
    0x23BB, // 70
    0x2500, // 71
    0x23BC, // 72
    0x23BD, // 73
    0x251C, // 74
    0x2524, // 75
    0x2534, // 76
    0x252C, // 77
    0x2502, // 78
    0x2264, // 79
    0x2265, // 7A
    0x03C0, // 7B
    0x2260, // 7C
    0x00A3, // 7D
    0x00B7, // 7E
];

// "?", for what has no sign.
const UNSHOWN: u16 = 0x3F;

fn line_drawing_sign(n: usize) -> u16
    requires { n < 32 }
    ensures { result ≡ get_or line_drawing n 0 }
{
    LINE_DRAWING[n]
}

// What a code of ASCII, or one of Special Graphics below 5F, shows: itself, or "?" for a control code.
fn shown_code(code: u16) -> u16
    ensures { result ≡ shown_code code }
{
    if (code < 0x20) | (code == 0x7F) {
        UNSHOWN
    } else {
        code
    }
}

fn graphic_sign(code: u16) -> u16
    requires { code < 128 }
    ensures { result ≡ graphic_sign code }
{
    match code {
        0x5F..=0x7E => line_drawing_sign((code - 0x5F) as usize),
        _ => shown_code(code),
    }
}

// The code point of a cell's word: bits 0 to 6 are its code, 7 and 8 its set. Code 1A, which SUB
// puts, is U+2426 in each set.
#[tactic(auto, unfolding(cells::specs::Cells::unpacked, crate::specs::Text::sign))]
pub fn sign(word: u16) -> u16
    ensures { result ≡ sign word }
{
    let code = word % 128;
    if code == 0x1A {
        return 0x2426;
    }
    match word / 128 % 4 {
        0 => shown_code(code),
        1 => graphic_sign(code),
        2 => UNSHOWN,
        _ => 0x80 + code,
    }
}
