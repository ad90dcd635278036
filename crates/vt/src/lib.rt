// What characters, controls and escape sequences do to the core.
#![tactic(auto)]

pub mod controls;
pub mod escapes;
pub mod printing;
