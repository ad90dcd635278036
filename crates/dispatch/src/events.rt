// Bytes that may draw a reply or tell the status line something, found before they are decoded.
ghost use Rattle.std.specs.Prelude.{◌≡◌, true};
ghost use Rattle.parser.specs.Parser.{decode};
ghost use Rattle.dispatch.specs.Events as events;

use parser::parser::{Action, Parser};
use parser::phases::{Phase, is_ground};

// DECID; and in a sequence the finals Z c n p } ~, also as the byte 80 higher. One arm for each, as in `is_touch`.
pub fn interrupts(phase: Phase, byte: u8) -> bool
    ensures { result ≡ events.interrupts phase byte }
{
    match byte {
        0x5A => !is_ground(phase),
        0x63 => !is_ground(phase),
        0x6E => !is_ground(phase),
        0x70 => !is_ground(phase),
        0x7D => !is_ground(phase),
        0x7E => !is_ground(phase),
        0xDA => !is_ground(phase),
        0xE3 => !is_ground(phase),
        0xEE => !is_ground(phase),
        0xF0 => !is_ground(phase),
        0xFD => !is_ground(phase),
        0xFE => !is_ground(phase),
        0x9A => true,
        _ => false,
    }
}

// What such a byte asks for.
#[tactic(auto, unfolding(parser::specs::Parser::decode, parser::specs::Parser::transition))]
pub fn interruption(parser: Parser, byte: u8) -> Action
    requires { events.interrupts parser.phase byte ≡ true }
    ensures { result ≡ (decode parser byte).action }
{
    if byte == 0x9A {
        return Action::C1Control { byte };
    }
    parser.final_action(byte)
}
