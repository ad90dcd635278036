// What knows nothing of terminals: numbers held to a bound, tests, and bytes written into a lent buffer.
#![tactic(auto)]

pub mod decimals;
pub mod numbers;
pub mod tests;
pub mod writing;
