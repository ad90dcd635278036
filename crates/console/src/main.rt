// Reads standard input into a 24-row page, and writes the page as 24 lines; with the argument `line`, the status line's text
// as one line more. Replies go nowhere. With another argument, and where the input cannot be read to its end, it says so and
// writes no page.
#![tactic(auto)]

ghost use Rattle.std.specs.Prelude.{◌≡◌, ◌+◌, ◌*◌, ◌≤◌, length};
ghost use Rattle.std.proofs.lemmas.List.Edits.{sets};
ghost use Rattle.steps.specs.Ready.{Ready};
ghost use Rattle.steps.specs.Steps.{buffers};
ghost use Rattle.text.specs.Text.{text_of};
ghost use Rattle.console.specs.Feeding.{RanOver};

use std::env::{Env, FillError};
use std::io;
use std::io::{ErrorKind, Read, Write};
use steps::State;
use terminal::calls::{feed, start};
use text::write_text;

// All bytes of one read. A call stops before a reply that does not fit; the next one has the whole buffer
// again. No reply is longer than 11 bytes, so each call reads a byte. A `while`, since a call tells how far it read.
fn feed_all(
    state: State,
    page: &mut [u16],
    line: &mut [u16],
    input: &[u8],
    reply: &mut [u8],
) -> State
    requires { Ready state page.old × (length line.old ≡ 80) × (11 ≤ length reply.old) }
    ensures { RanOver state (buffers page.old line.old) input.now result
        (buffers page.new line.new) }
{
    let mut newest = state;
    let mut from = 0;
    while from < input.len() {
        let fed = feed(newest, page, line, &input[from..], reply).unwrap();
        newest = fed.state;
        from += fed.read;
    }
    newest
}

// Reads until the input ends, or cannot be read, and feeds what comes. A read that a signal interrupted is tried again. A
// proved loop has to end, and nothing says that the input does: so the reads are counted, up to a number that no run uses up.
fn read_all(
    reader: &mut impl Read,
    state: &mut State,
    page: &mut [u16],
    line: &mut [u16],
    buffer: &mut [u8],
    reply: &mut [u8],
) -> io::Result<()>
    requires { Ready state.old page.old × (length line.old ≡ 80) × (11 ≤ length reply.old) }
    ensures { Ready state.new page.new }
{
    for _ in 0..u64::MAX {
        match reader.read(buffer) {
            Ok(0) => return Ok(()),
            Ok(n) => *state = feed_all(*state, page, line, &buffer[..n], reply),
            Err(e) if e.kind() == ErrorKind::Interrupted => {}
            Err(e) => return Err(e),
        }
    }
    Err(ErrorKind::FileTooLarge.into())
}

// The text of a row has at most 241 bytes, so it is always written whole. `rows` is there for the promise alone.
fn write_rows(writer: &mut impl Write, rows: usize, cells: &[u16], out: &mut [u8]) -> io::Result<()>
    requires { (length cells.now ≡ 80 * rows) × (80 * 3 * rows + rows ≤ length out.old) }
    ensures { out.new ≡ sets out.old 0 (text_of rows cells.now) }
{
    let len = write_text(cells, out).unwrap();
    writer.write_all(&out[..len])
}

// Reads all of standard input, and writes the page, and the line if that is asked for.
fn show(rt: &(impl Input + Print + Eprint), line_too: bool) -> io::Result<()> {
    let mut page = [0u16; 1920];
    let mut line = [0u16; 80];
    let mut buffer = [0u8; 65536];
    let mut reply = [0u8; 64];
    let mut out = [0u8; 5784];
    let mut reader = rt.reader();
    let mut writer = io::writer(rt);
    let mut state = start(24, &mut page, &mut line).unwrap();
    let read = read_all(
        &mut reader,
        &mut state,
        &mut page,
        &mut line,
        &mut buffer,
        &mut reply,
    );
    if read.is_err() {
        return rt.eprintln("console: cannot read standard input");
    }
    write_rows(&mut writer, 24, &page, &mut out)?;
    if line_too {
        write_rows(&mut writer, 1, &line, &mut out)?;
    }
    Ok(())
}

// What the arguments may ask for.
#[derive(Clone, Copy, PartialEq, Eq)]
enum Wanted {
    Page,
    PageAndLine,
}

// None is for arguments that ask for nothing that there is. The program's name is argument 0. An argument that is longer
// than `line` does not fit.
fn asked_for(rt: &impl Env) -> Option<Wanted> {
    let mut word = [0u8; 4];
    match rt.arg(1, &mut word) {
        Err(FillError::NotPresent) => Some(Wanted::Page),
        Ok(4) if word == *b"line" && is_alone(rt) => Some(Wanted::PageAndLine),
        _ => None,
    }
}

// Whether no argument comes after the first.
fn is_alone(rt: &impl Env) -> bool {
    matches!(rt.arg(2, &mut []), Err(FillError::NotPresent))
}

fn main(rt: HostRuntime) -> io::Result<()> {
    match asked_for(&rt) {
        Some(wanted) => show(&rt, wanted == Wanted::PageAndLine),
        None => rt.eprintln("console: the only argument is the word line"),
    }
}
