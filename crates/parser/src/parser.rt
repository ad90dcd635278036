// The parser: where it stands in a sequence, and what a byte asks for.
ghost use Rattle.std.specs.Prelude.{◌≡◌, false, ◌≤◌, ◌<◌};
ghost use Rattle.parser.specs.Phases.{is_ground};
ghost use Rattle.parser.specs.Parser as parsing;

use crate::families::{Function, is_joined, joined_mark};
use crate::params::Params;
use crate::phases::{Op, Phase, Transition, intermediates, takes_parameters};
use crate::rules::{sequence_rule, transition};
use ground::numbers::pick;
use ground::tests::between;

// `mark` is 0 where the sequence has none, and 80 more with subparameters (families.rt). `first` and `second` are the intermediates.
#[derive(Clone, Copy)]
pub struct Parser {
    pub phase: Phase,
    pub mark: u8,
    pub first: u8,
    pub second: u8,
    pub params: Params,
}

// What a byte asks the terminal to do. An intermediate or a mark that is not there is 0. (`Nothing`, as `Op::Ignore`, is one of
// the arms of each match.)
#[derive(Clone, Copy)]
pub enum Action {
    Nothing,
    Character { byte: u8 },
    Substitute,
    Control { byte: u8 },
    C1Control { byte: u8 },
    EscapeSequence { first: u8, second: u8, last: u8 },
    ControlSequence(Function),
}

#[derive(Clone, Copy)]
pub struct Decoded {
    pub parser: Parser,
    pub action: Action,
}

// ESC 40 to 5F is the byte 40 higher.
fn c1_byte(byte: u8) -> u8
    ensures { result ≡ parsing.c1_byte byte }
{
    if between(0x80, byte, 0x9F) {
        byte
    } else {
        byte % 128 + 0x40
    }
}

// SGR is read as without subparameters.
fn sequence_action(mut function: Function) -> Action
    ensures { result ≡ parsing.sequence_action function.mark function.first function.second function.last }
{
    function.mark = pick(function.is_joined_rendition(), 0, function.mark);
    Action::ControlSequence(function)
}

impl Parser {
    // Nothing read yet, in a phase.
    pub fn cleared(phase: Phase) -> Self
        ensures { result ≡ parsing.cleared phase }
    {
        Parser {
            phase,
            mark: 0,
            first: 0,
            second: 0,
            params: Params::none(),
        }
    }

    pub fn in_phase(self, phase: Phase) -> Self
        ensures { result ≡ parsing.in_phase phase self }
    {
        Parser { phase, ..self }
    }

    // The phase that is entered tells whether the intermediate is the first or the second.
    fn collected(self, phase: Phase, x: u8) -> Self
        ensures { result ≡ parsing.collected phase self x }
    {
        let count = intermediates(phase);
        Parser {
            phase,
            first: pick(count == 1, x, self.first),
            second: pick(count == 2, x, self.second),
            ..self
        }
    }

    // A mark says nothing of subparameters.
    pub fn with_mark(self, phase: Phase, x: u8) -> Self
        ensures { result ≡ parsing.with_mark phase self x }
    {
        Parser {
            phase,
            mark: pick(is_joined(self.mark), joined_mark(x), x),
            ..self
        }
    }

    // That a parameter which is kept has a subparameter shows in the mark.
    fn mark_after(self, x: u8) -> u8
        ensures { result ≡ parsing.mark_after self x }
    {
        if self.params.joins(x) {
            joined_mark(self.mark)
        } else {
            self.mark
        }
    }

    pub fn with_params(self, phase: Phase, mark: u8, params: Params) -> Self
        ensures { result ≡ parsing.with_params phase self mark params }
    {
        Parser {
            phase,
            mark,
            params,
            ..self
        }
    }

    fn gathered(self, phase: Phase, x: u8) -> Self
        ensures { result ≡ parsing.gathered phase self x }
    {
        self.with_params(phase, self.mark_after(x), self.params.take(x))
    }

    // What the parser keeps of a byte.
    fn kept(self, next: Phase, op: Op, byte: u8) -> Self
        ensures { result ≡ parsing.kept self next op byte }
    {
        match op {
            Op::Clear => Parser::cleared(next),
            Op::Collect => self.collected(next, byte % 128),
            Op::Mark => self.with_mark(next, byte % 128),
            Op::Param => self.gathered(next, byte % 128),
            _ => self.in_phase(next),
        }
    }

    // The intermediates: one that is not there is 0.
    fn first_of(self) -> u8
        ensures { result ≡ parsing.first_of self }
    {
        pick(1 <= intermediates(self.phase), self.first, 0)
    }

    fn second_of(self) -> u8
        ensures { result ≡ parsing.second_of self }
    {
        pick(2 <= intermediates(self.phase), self.second, 0)
    }

    // What a byte asks for.
    fn action_of(self, op: Op, byte: u8) -> Action
        ensures { result ≡ parsing.action_of self op byte }
    {
        match op {
            Op::Print => Action::Character { byte },
            Op::Sub => Action::Substitute,
            Op::Execute => Action::Control { byte },
            Op::C1 => Action::C1Control {
                byte: c1_byte(byte),
            },
            Op::EscDispatch => Action::EscapeSequence {
                first: self.first_of(),
                second: self.second_of(),
                last: byte % 128,
            },
            Op::CsiDispatch => sequence_action(Function {
                mark: self.mark,
                first: self.first_of(),
                second: self.second_of(),
                last: byte % 128,
            }),
            _ => Action::Nothing,
        }
    }

    // What 40 to 7E ask for in a sequence, also as the byte 80 higher.
    pub fn final_action(self, byte: u8) -> Action
        requires { (0x40 ≤ parsing.lowered byte) × (parsing.lowered byte < 0x7F) × (is_ground self.phase ≡ false) }
        ensures { result ≡ (parsing.decode self byte).action }
    {
        let step = sequence_rule(self.phase, byte % 128);
        self.action_of(step.op, byte)
    }

    // One byte. The end of a control sequence needs no rule.
    pub fn decode(self, byte: u8) -> Decoded
        ensures { result ≡ parsing.decode self byte }
    {
        if takes_parameters(self.phase) & between(0x40, byte, 0x7E) {
            return Decoded {
                parser: self.in_phase(Phase::Ground),
                action: sequence_action(Function {
                    mark: self.mark,
                    first: 0,
                    second: 0,
                    last: byte,
                }),
            };
        }
        let Transition { next, op } = transition(self.phase, byte);
        Decoded {
            parser: self.kept(next, op, byte),
            action: self.action_of(op, byte),
        }
    }
}
