// What is written of an answer, put together in a buffer. What does not fit is left out.
ghost use Rattle.std.specs.Prelude.{[], ◌∷◌};
ghost use Rattle.probes.specs.Output.{Put, PutAt, low_first, word_bytes};

use ground::writing::Writer;

#[tactic(auto, using(crate::proofs::OutputLaws::byte_cases))]
pub fn put(out: &mut Writer, byte: u8)
    ensures { Put out.old (byte ∷ []) out.new }
{
    if out.len < out.bytes.len() {
        out.byte(byte);
    }
}

// So many bytes of a number, the lowest first.
pub fn put_number(out: &mut Writer, n: u64, bytes: u8)
    ensures { Put out.old (low_first bytes n) out.new }
{
    let mut rest = n;
    for _ in 0..bytes {
        put(out, (rest % 256) as u8);
        rest /= 256;
    }
}

pub fn put_bytes(out: &mut Writer, from: &[u8])
    ensures { Put out.old from.now out.new }
{
    for byte in from {
        put(out, *byte);
    }
}

// From a place on, by a writer of its own, whose place the compiler keeps in a register. The place after them.
fn words_at(bytes: &mut [u8], at: usize, from: &[u16]) -> usize
    ensures { PutAt bytes.old at (word_bytes from.now) bytes.new result }
{
    let mut out = Writer { bytes, len: at };
    for word in from {
        put_number(&mut out, u64::from(*word), 2);
    }
    out.len
}

// Each word as two bytes.
pub fn put_words(out: &mut Writer, from: &[u16])
    ensures { Put out.old (word_bytes from.now) out.new }
{
    out.len = words_at(out.bytes, out.len, from);
}
