// The functions on rectangles: erase, selective erase, fill, copy, change and reverse attributes, and the extent of
// the last two. Margins bound none of them, and the cursor stays.
#![tactic(auto)]

pub mod areas;
pub mod attributes;
pub mod functions;
