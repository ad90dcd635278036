// One byte: what is heard of the parser's action is dispatched to page or status line, wrap due is settled, and the reply is chosen.
#![tactic(auto)]

pub mod decide;
pub mod displays;
pub mod events;
pub mod heard;
pub mod reply;
pub mod touches;
pub mod wrap;
