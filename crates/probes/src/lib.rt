// What the script of calls shows of a state, byte by byte, and what it changes in one.
#![tactic(auto)]

pub mod output;
pub mod pokes;
pub mod views;
