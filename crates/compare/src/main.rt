// Carries out a script of calls from standard input, and writes what each answered: the proved side of
// the comparison with the second program. reference/README.md has the script's format. Each command is a letter
// and two numbers of two bytes; after F comes the input, after Q a parser.
#![tactic(auto)]

use ground::writing::Writer;
use probes::output::{put, put_bytes, put_number, put_words};
use probes::pokes::{number16, poke, poke_parser};
use probes::views::put_displays;
use std::io;
use std::io::{ErrorKind, Read, Write};
use steps::State;
use terminal::answers::{DONE, fitting};
use terminal::calls::{ask, feed, fresh, read, start};
use terminal::rows::row;
use text::write_text;

// The newest state, and how many words of the buffers are lent as the page and as the line.
#[derive(Clone, Copy)]
struct Session {
    state: State,
    words: usize,
    cells: usize,
}

// The letter is the script's own byte: each is matched in one place, so names for them would say no more.
#[derive(Clone, Copy)]
struct Command {
    letter: u8,
    a: u16,
    b: u16,
}

// Fills a buffer, and tells whether the input had so many bytes. Where it has fewer, the rest stays as it was.
fn read_full(reader: &mut impl Read, bytes: &mut [u8]) -> io::Result<bool> {
    match reader.read_exact(bytes) {
        Ok(()) => Ok(true),
        Err(e) if e.kind() == ErrorKind::UnexpectedEof => Ok(false),
        Err(e) => Err(e),
    }
}

// Writes what was put, and begins anew.
fn flush(writer: &mut impl Write, out: &mut Writer) -> io::Result<()> {
    let n = out.len.min(out.bytes.len());
    out.len = 0;
    writer.write_all(&out.bytes[..n])
}

// The letter of a command, and the number of its answer: they begin what is written of a call.
fn put_answer(out: &mut Writer, letter: u8, answer: u8) {
    put(out, letter);
    put(out, answer);
}

fn do_start(state: &mut State, rows: u16, page: &mut [u16], line: &mut [u16], out: &mut Writer) {
    let answer = match start(rows as usize, page, line) {
        Ok(begun) => {
            *state = begun;
            DONE
        }
        Err(refused) => {
            *state = refused.returned;
            refused.refusal.into()
        }
    };
    put_answer(out, b'S', answer);
}

// Every byte of the reply buffer is EE before a feeding.
fn do_feed(
    state: &mut State,
    page: &mut [u16],
    line: &mut [u16],
    input: &[u8],
    reply: &mut [u8],
    out: &mut Writer,
) {
    reply.fill(0xEE);
    let (answer, read, replied) = match feed(*state, page, line, input, reply) {
        Ok(fed) => {
            *state = fed.state;
            (fitting(fed.full), fed.read, fed.replied)
        }
        Err(refused) => {
            let fed = refused.returned;
            *state = fed.state;
            (refused.refusal.into(), fed.read, fed.replied)
        }
    };
    put_answer(out, b'F', answer);
    put_number(out, read as u64, 2);
    put_number(out, replied as u64, 2);
    put_bytes(out, reply);
}

fn do_ask(state: &mut State, out: &mut Writer) {
    let (answer, rows, count, flag) = match ask(*state) {
        Ok(asked) => {
            *state = asked.state;
            (DONE, asked.rows, asked.count, asked.flag)
        }
        Err(refused) => {
            let asked = refused.returned;
            *state = asked.state;
            (refused.refusal.into(), asked.rows, asked.count, asked.flag)
        }
    };
    put_answer(out, b'A', answer);
    put_number(out, rows, 8);
    put_number(out, count as u64, 1);
    put(out, flag as u8);
}

fn do_read(state: State, page: &[u16], row: u16, column: u16, out: &mut Writer) {
    let (answer, word) = match read(state, page, row as usize, column as usize) {
        Ok(word) => (DONE, word),
        Err(refused) => (refused.refusal.into(), refused.returned),
    };
    put_answer(out, b'R', answer);
    put_number(out, word as u64, 2);
}

fn do_row<'a>(state: State, page: &'a [u16], line: &'a [u16], at: u16, out: &mut Writer) {
    let (answer, cells) = match row(state, page, line, at as usize) {
        Ok(cells) => (DONE, cells),
        Err(refused) => (refused.refusal.into(), refused.returned),
    };
    put_answer(out, b'O', answer);
    put_number(out, cells.len() as u64, 1);
    put_words(out, cells);
}

// P and D.
fn do_words(letter: u8, words: &[u16], out: &mut Writer) {
    put(out, letter);
    put_words(out, words);
}

// The text goes to the input's buffer first, which no command needs while it is written.
fn do_text(page: &[u16], space: &mut [u8], out: &mut Writer) {
    let Ok(len) = write_text(page, space) else {
        return;
    };
    let n = len.min(space.len());
    put(out, b'T');
    put_number(out, len as u64, 2);
    put_bytes(out, &space[..n]);
}

fn do_view(state: State, out: &mut Writer) {
    put(out, b'V');
    put_displays(out, state.displays);
}

fn do_parser(reader: &mut impl Read, state: State) -> io::Result<State> {
    let mut bytes = [0u8; 37];
    let _ = read_full(reader, &mut bytes)?;
    Ok(poke_parser(state, bytes))
}

fn set_word(words: &mut [u16], at: u16, word: u16) {
    let k = at as usize;
    if k < words.len() {
        words[k] = word;
    }
}

// The commands that change nothing.
fn look<'a>(
    session: Session,
    command: Command,
    page: &'a [u16],
    line: &'a [u16],
    space: &mut [u8],
    out: &mut Writer,
) {
    let state = session.state;
    let words = session.words.min(page.len());
    let cells = session.cells.min(line.len());
    let lent = &page[..words];
    let beside = &line[..cells];
    match command.letter {
        b'R' => do_read(state, lent, command.a, command.b, out),
        b'O' => do_row(state, lent, beside, command.a, out),
        b'P' => do_words(b'P', lent, out),
        b'D' => do_words(b'D', beside, out),
        b'T' => do_text(lent, space, out),
        b'V' => do_view(state, out),
        _ => {}
    }
}

// S and F, which write page and line.
fn begin(
    session: &mut Session,
    command: Command,
    page: &mut [u16],
    line: &mut [u16],
    out: &mut Writer,
) {
    let words = (command.b as usize).min(page.len());
    let cells = session.cells.min(line.len());
    session.words = words;
    session.cells = cells;
    do_start(
        &mut session.state,
        command.a,
        &mut page[..words],
        &mut line[..cells],
        out,
    );
}

fn take(
    session: &mut Session,
    command: Command,
    page: &mut [u16],
    line: &mut [u16],
    input: &[u8],
    reply: &mut [u8],
    out: &mut Writer,
) {
    let words = session.words.min(page.len());
    let cells = session.cells.min(line.len());
    let n = (command.a as usize).min(input.len());
    let m = (command.b as usize).min(reply.len());
    do_feed(
        &mut session.state,
        &mut page[..words],
        &mut line[..cells],
        &input[..n],
        &mut reply[..m],
        out,
    );
}

// The commands that have no answer.
fn change(session: &mut Session, command: Command, page: &mut [u16], line: &mut [u16]) {
    match command.letter {
        b'L' => session.words = command.a as usize,
        b'M' => session.cells = command.a as usize,
        b'B' => session.state = poke(session.state, command.a, command.b),
        b'W' => set_word(page, command.a, command.b),
        _ => set_word(line, command.a, command.b),
    }
}

// Whether the script goes on.
fn carry(
    session: &mut Session,
    command: Command,
    page: &mut [u16],
    line: &mut [u16],
    input: &mut [u8],
    reply: &mut [u8],
    out: &mut Writer,
) -> bool {
    match command.letter {
        b'S' => begin(session, command, page, line, out),
        b'F' => take(session, command, page, line, input, reply, out),
        b'A' => do_ask(&mut session.state, out),
        b'R' | b'O' | b'P' | b'D' | b'T' | b'V' => look(*session, command, page, line, input, out),
        b'L' | b'M' | b'B' | b'W' | b'I' => change(session, command, page, line),
        _ => return false,
    }
    true
}

// None where the input ends within the command.
fn read_command(reader: &mut impl Read) -> io::Result<Option<Command>> {
    let mut head = [0u8; 5];
    if !read_full(reader, &mut head)? {
        return Ok(None);
    }
    Ok(Some(Command {
        letter: head[0],
        a: number16(head[1], head[2]),
        b: number16(head[3], head[4]),
    }))
}

// What follows F.
fn read_input(reader: &mut impl Read, command: Command, input: &mut [u8]) -> io::Result<()> {
    let n = (command.a as usize).min(input.len());
    let _ = read_full(reader, &mut input[..n])?;
    Ok(())
}

// Reads what follows a command, and carries it out. Whether the script goes on.
fn next(
    reader: &mut impl Read,
    session: &mut Session,
    command: Command,
    page: &mut [u16],
    line: &mut [u16],
    input: &mut [u8],
    reply: &mut [u8],
    out: &mut Writer,
) -> io::Result<bool> {
    if command.letter == b'Q' {
        session.state = do_parser(reader, session.state)?;
        return Ok(true);
    }
    if command.letter == b'F' {
        read_input(reader, command, input)?;
    }
    Ok(carry(session, command, page, line, input, reply, out))
}

// Carries out the commands of a script, and writes what each answers. They are counted, up to a number that no run uses up.
fn carry_out(
    reader: &mut impl Read,
    writer: &mut impl Write,
    page: &mut [u16],
    line: &mut [u16],
    input: &mut [u8],
    reply: &mut [u8],
    out: &mut Writer,
) -> io::Result<()> {
    let mut session = Session {
        state: fresh(24),
        words: 0,
        cells: 80,
    };
    for _ in 0..u64::MAX {
        let Some(command) = read_command(reader)? else {
            break;
        };
        if !next(reader, &mut session, command, page, line, input, reply, out)? {
            break;
        }
        flush(writer, out)?;
    }
    writer.flush()
}

fn main(rt: HostRuntime) -> io::Result<()> {
    let mut page = [0u16; 4096];
    let mut line = [0u16; 128];
    let mut input = [0u8; 65536];
    let mut reply = [0u8; 4096];
    let mut buffer = [0u8; 65536];
    let mut out = Writer {
        bytes: &mut buffer,
        len: 0,
    };
    let mut reader = rt.reader();
    let mut writer = io::writer(&rt);
    carry_out(
        &mut reader,
        &mut writer,
        &mut page,
        &mut line,
        &mut input,
        &mut reply,
        &mut out,
    )
}
