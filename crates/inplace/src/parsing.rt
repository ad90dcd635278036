// One byte that only moves the parser, read with the numbers of a plain record as it lies: ESC, the [ after it, and in a control sequence
// a digit or 3B.
ghost use Rattle.std.specs.Prelude.{◌≡◌, ℕ, ◌*◌, true, List, [], ◌∷◌, length};
ghost use Rattle.idle.specs.Idle.{Skipped};
ghost use Rattle.record.specs.Plain.{plain};
ghost use Rattle.inplace.specs.InPlace.{steers_by, steers_in_place, FedInPlace};

use ground::tests::between;
use parser::parser::Parser;
use parser::phases::{Phase, takes_parameters};
use record::to_state::parser_of;
use record::{ParserRecord, Terminal};

const ESC: u8 = 0x1B;

// [, which makes CSI of ESC.
const BRACKET: u8 = 0x5B;

fn steers_by(phase: Phase, byte: u8) -> bool
    ensures { result ≡ steers_by phase byte }
{
    match byte {
        ESC => true,
        BRACKET => phase == Phase::Escape,
        _ => takes_parameters(phase) & (between(0x30, byte, 0x39) | (byte == 0x3B)),
    }
}

pub fn steers(terminal: Terminal, input: &[u8]) -> bool
    ensures { result ≡ steers_in_place terminal input.now }
{
    if input.len() != 1 {
        return false;
    }
    steers_by(Phase::from(terminal.parser.phase), input[0])
}

fn next_parser(parser: Parser, byte: u8) -> Parser
    requires { steers_by parser.phase byte ≡ true }
    ensures { Skipped parser (byte ∷ []) 0 (record { parser = result; next = 1 }) }
{
    match byte {
        ESC => Parser::cleared(Phase::Escape),
        BRACKET => Parser::cleared(Phase::CsiEntry),
        _ => parser.with_params(Phase::CsiParam, parser.mark, parser.params.take(byte)),
    }
}

// The record after it: that is all that a feeding does, and page, line and reply buffer stay.
pub fn steered(mut terminal: Terminal, input: &[u8]) -> Terminal
    requires { (plain terminal ≡ true) × (steers_in_place terminal input.now ≡ true) }
    ensures { (p : List ℕ) → length p ≡ 80 * terminal.rows → FedInPlace terminal p input.now result p }
{
    let unused = [0u8; 5];
    let values = terminal.values;
    let parser = next_parser(parser_of(terminal.parser, values), input[0]);
    let values = parser.params.values;
    terminal.parser = ParserRecord::from(parser);
    terminal.values = values;
    terminal.unused = unused;
    terminal
}
