// The state, and a byte's step or steps on one display.
#![tactic(auto)]

use core_state::Displays;

pub mod byte;

// What is kept of the cells that bytes write. The changed rows are bits of one number, row 1 the lowest; the flag is
// set if the line changed.
#[derive(Clone, Copy)]
pub struct Tracked {
    pub changed: u64,
    pub flag: bool,
}

#[derive(Clone, Copy)]
pub struct State {
    pub displays: Displays,
    pub tracked: Tracked,
}
