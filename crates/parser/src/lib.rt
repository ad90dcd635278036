// The parser: parameters, phases, and what a byte asks for.
#![tactic(auto)]

pub mod families;
pub mod params;
pub mod parser;
pub mod phases;
pub mod rules;
pub mod whole;
