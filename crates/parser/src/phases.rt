// The parser's phases, their numbers, and what is true of one or two of them.
ghost use Rattle.std.specs.Prelude.{◌≡◌};
ghost use Rattle.parser.specs.Phases as phases;

// Where the parser stands. The phase tells how many of the intermediates count.
#[derive(Clone, Copy, PartialEq, Eq, Debug)]
pub enum Phase {
    Ground,
    Escape,
    EscapeOne,
    EscapeTwo,
    EscapeIgnore,
    CsiEntry,
    CsiParam,
    CsiOne,
    CsiTwo,
    CsiIgnore,
    StringText,
}

// What is done with a byte.
#[derive(Clone, Copy)]
pub enum Op {
    // Nothing: one of the arms of each match, where an Option would have two levels.
    Ignore,
    // A graphic character in ground.
    Print,
    // SUB.
    Sub,
    // A control below 20.
    Execute,
    // A control 80 to 9F, or its form with ESC.
    C1,
    // A sequence starts.
    Clear,
    // An intermediate.
    Collect,
    // A private mark.
    Mark,
    // A digit, 3A or 3B.
    Param,
    EscDispatch,
    CsiDispatch,
}

// The range rules: the next phase and what is done, by the phase and the byte alone.
#[derive(Clone, Copy)]
pub struct Transition {
    pub next: Phase,
    pub op: Op,
}

// ---- numbers

impl From<Phase> for u8 {
    ghost from_gives = { λ p n. n ≡ phases.phase_number p };

    fn from(phase: Phase) -> u8 {
        match phase {
            Phase::Ground => 0,
            Phase::Escape => 1,
            Phase::EscapeOne => 2,
            Phase::EscapeTwo => 3,
            Phase::EscapeIgnore => 4,
            Phase::CsiEntry => 5,
            Phase::CsiParam => 6,
            Phase::CsiOne => 7,
            Phase::CsiTwo => 8,
            Phase::CsiIgnore => 9,
            Phase::StringText => 10,
        }
    }
}

// A number past the last counts as the last.
impl From<u8> for Phase {
    ghost from_gives = { λ n p. p ≡ phases.phase_of n };

    fn from(number: u8) -> Phase {
        match number {
            0 => Phase::Ground,
            1 => Phase::Escape,
            2 => Phase::EscapeOne,
            3 => Phase::EscapeTwo,
            4 => Phase::EscapeIgnore,
            5 => Phase::CsiEntry,
            6 => Phase::CsiParam,
            7 => Phase::CsiOne,
            8 => Phase::CsiTwo,
            9 => Phase::CsiIgnore,
            _ => Phase::StringText,
        }
    }
}

// ---- one or two phases

pub fn is_ground(phase: Phase) -> bool
    ensures { result ≡ phases.is_ground phase }
{
    phase == Phase::Ground
}

pub fn is_string(phase: Phase) -> bool
    ensures { result ≡ phases.is_string phase }
{
    phase == Phase::StringText
}

// Where parameters are read.
pub fn takes_parameters(phase: Phase) -> bool
    ensures { result ≡ phases.takes_parameters phase }
{
    matches!(phase, Phase::CsiEntry | Phase::CsiParam)
}

// How many intermediates were collected.
pub fn intermediates(phase: Phase) -> u8
    ensures { result ≡ phases.intermediates phase }
{
    match phase {
        Phase::EscapeOne | Phase::CsiOne => 1,
        Phase::EscapeTwo | Phase::CsiTwo => 2,
        _ => 0,
    }
}
