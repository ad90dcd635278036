// The parts of the device that know nothing of each other: its cursor, tab stops and character sets, and the
// replies that it sends.
#![tactic(auto)]

pub mod charsets;
pub mod cursor;
pub mod sending;
pub mod tabs;
