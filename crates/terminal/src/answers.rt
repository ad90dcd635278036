// The scope's numbers of the answers, and a refusal in words.
ghost use Rattle.std.specs.Prelude.{◌≡◌, if◌then◌else◌};
ghost use Rattle.terminal.specs.Answers.{Done, NoRoom, number, answer_of, answered, returned};

use crate::{Refusal, Refused};
use std::error::Error;
use std::fmt;

// The numbers of the answers that are no refusals.
pub const DONE: u8 = 0;

pub const NO_ROOM: u8 = 3;

// The number of a feeding that is not refused, by whether it stopped before a reply that does not fit.
pub fn fitting(full: bool) -> u8
    ensures { result ≡ number (if full then NoRoom else Done) }
{
    if full { NO_ROOM } else { DONE }
}

// The number of what a call answered, but of a feeding.
pub fn number<T: Copy>(called: Result<T, Refused<T>>) -> u8
    ensures { result ≡ number (answered called) }
{
    match called {
        Ok(_) => DONE,
        Err(refused) => refused.refusal.into(),
    }
}

// What a call returned, refused or not.
pub fn returned<T: Copy>(called: Result<T, Refused<T>>) -> T
    ensures { result ≡ returned called }
{
    match called {
        Ok(value) => value,
        Err(refused) => refused.returned,
    }
}

impl fmt::Display for Refusal {
    ghost use Rattle.std.specs.Prelude.{Some};
    ghost use Rattle.terminal.specs.Answers.{words};

    ghost output = { λ refusal. Some (words refusal) };

    fn fmt<W: fmt::Write>(&self, f: &mut fmt::Formatter<W>) -> fmt::Result {
        match self {
            Refusal::Broken => f.write_str("the state is not whole"),
            Refusal::WrongSize => f.write_str("page or line is of another length"),
            Refusal::OffPage => f.write_str("there is no such row or cell"),
        }
    }
}

impl Error for Refusal {}

impl<T> fmt::Display for Refused<T> {
    ghost use Rattle.std.specs.Prelude.{Some};
    ghost use Rattle.terminal.specs.Answers.{words};

    ghost output = { λ refused. Some (words refused.refusal) };

    fn fmt<W: fmt::Write>(&self, f: &mut fmt::Formatter<W>) -> fmt::Result {
        fmt::Display::fmt(&self.refusal, f)
    }
}

// The reason alone: what is returned may have no Debug.
impl<T> fmt::Debug for Refused<T> {
    fn fmt<W: fmt::Write>(&self, f: &mut fmt::Formatter<W>) -> fmt::Result {
        fmt::Debug::fmt(&self.refusal, f)
    }
}

impl<T: Drop> Error for Refused<T> {}

impl From<Refusal> for u8 {
    ghost from_gives = { λ refusal n. n ≡ number (answer_of refusal) };

    fn from(refusal: Refusal) -> u8 {
        match refusal {
            Refusal::Broken => 1,
            Refusal::WrongSize => 2,
            Refusal::OffPage => 4,
        }
    }
}
