// Bytes of an input that are done at once on one display: characters, lines of text, controls and control sequences that move the
// cursor, the rendition and cells alone, and what only moves the parser.
#![tactic(auto)]

pub mod characters;
pub mod direct;
pub mod parts;
pub mod printer;
