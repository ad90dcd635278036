// What control sequences do: they move the cursor, erase, insert and delete, and set tabs, modes, rendition and
// margins; on rectangles they act by the crate of that name.
#![tactic(auto)]

pub mod erasing;
pub mod inserting;
pub mod modes;
pub mod moves;
pub mod sequences;
