// The demands, as theorems about the definitions of the crates below: specs/ states them, proofs/ proves them.
#![tactic(auto)]
