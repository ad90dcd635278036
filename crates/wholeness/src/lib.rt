// Soundness of the definitions, as theorems: a byte's step keeps a whole state whole, the edits of the page on the page and
// those of the line on the line, and no reply is longer than 11 bytes.
#![tactic(auto)]
