// The replies, and their bytes, written into a lent buffer.
ghost use Rattle.std.specs.Prelude.{◌≡◌, [], ◌∷◌, ◌++◌, ◌+◌, ◌≤◌, length};
ghost use Rattle.device.specs.declared.sending.Reply.TheVariants.{Position, ExtendedPosition};
ghost use Rattle.ground.specs.Decimals.{decimal};
ghost use Rattle.device.specs.ReplyBytes.{csi, body_of, reply_bytes};
ghost use Rattle.ground.specs.Writes.{Counted, Wrote, Room, Appended};

use ground::decimals::decimal_len;
use ground::writing::Writer;

// ---- the replies

#[derive(Clone, Copy, PartialEq, Eq, Debug)]
pub enum Reply {
    // DA: a VT420 with selective erase.
    PrimaryAttributes,
    // Secondary DA.
    SecondaryAttributes,
    // DSR 5: no malfunction.
    Status,
    // CPR, the row counted from T with origin on.
    Position { row: u8, column: u8 },
    // DECXCPR: the same, with the page, which is 1.
    ExtendedPosition { row: u8, column: u8 },
    // DSR ?15: no printer.
    Printer,
}

// ---- how many bytes

fn csi_len(eightbit: bool) -> usize
    ensures { result ≡ length (csi eightbit) }
{
    if eightbit { 1 } else { 2 }
}

fn body_len(reply: Reply) -> usize
    ensures { Counted (body_of reply) 11 result }
{
    match reply {
        Reply::PrimaryAttributes => 6,
        Reply::SecondaryAttributes => 8,
        Reply::Status => 2,
        Reply::Position { row, column } => decimal_len(row) + decimal_len(column) + 2,
        Reply::ExtendedPosition { row, column } => decimal_len(row) + decimal_len(column) + 5,
        Reply::Printer => 4,
    }
}

// None takes none.
#[tactic(auto, unfolding(crate::specs::ReplyBytes::reply_bytes))]
pub fn reply_len(eightbit: bool, reply: Option<Reply>) -> usize
    ensures { result ≡ length (reply_bytes eightbit reply) }
{
    match reply {
        None => 0,
        Some(reply) => csi_len(eightbit) + body_len(reply),
    }
}

// ---- writers

// CSI as one byte or as two.
fn send_csi(out: &mut Writer, eightbit: bool)
    requires { Room out.old (length (csi eightbit)) }
    ensures { Appended out.old (csi eightbit) out.new }
{
    if eightbit {
        out.byte(0x9B);
    } else {
        out.bytes(b"\x1B[");
    }
}

// Row and column with 3B between.
fn send_place(out: &mut Writer, row: u8, column: u8)
    requires { Room out.old (length (decimal row ++ (0x3B ∷ []) ++ decimal column)) }
    ensures { Appended out.old (decimal row ++ (0x3B ∷ []) ++ decimal column) out.new }
{
    out.decimal(row);
    out.byte(0x3B);
    out.decimal(column);
}

// CPR.
fn send_position(out: &mut Writer, row: u8, column: u8)
    requires { Room out.old (length (body_of (Position row column))) }
    ensures { Appended out.old (body_of (Position row column)) out.new }
{
    send_place(out, row, column);
    out.byte(0x52);
}

// DECXCPR.
fn send_extended(out: &mut Writer, row: u8, column: u8)
    requires { Room out.old (length (body_of (ExtendedPosition row column))) }
    ensures { Appended out.old (body_of (ExtendedPosition row column)) out.new }
{
    out.byte(0x3F);
    send_place(out, row, column);
    out.bytes(b";1R");
}

// What follows CSI.
fn send_body(out: &mut Writer, reply: Reply)
    requires { Room out.old (length (body_of reply)) }
    ensures { Appended out.old (body_of reply) out.new }
{
    match reply {
        Reply::PrimaryAttributes => out.bytes(b"?64;6c"),
        Reply::SecondaryAttributes => out.bytes(b">41;1;0c"),
        Reply::Status => out.bytes(b"0n"),
        Reply::Position { row, column } => send_position(out, row, column),
        Reply::ExtendedPosition { row, column } => send_extended(out, row, column),
        Reply::Printer => out.bytes(b"?13n"),
    }
}

// From a place of the buffer on. Returns the place after the reply.
#[tactic(auto, unfolding(crate::specs::ReplyBytes::reply_bytes))]
pub fn send(eightbit: bool, reply: Option<Reply>, out: &mut [u8], at: usize) -> usize
    requires { at + length (reply_bytes eightbit reply) ≤ length out.old }
    ensures { Wrote out.old at (reply_bytes eightbit reply) out.new result }
{
    let Some(reply) = reply else {
        return at;
    };
    let mut writer = Writer {
        bytes: out,
        len: at,
    };
    send_csi(&mut writer, eightbit);
    send_body(&mut writer, reply);
    writer.len
}
