// Bytes fed one after the other: the loop over one display's bytes, and the loop over the input.
#![tactic(auto)]

pub mod bytes;
pub mod display;
