#![tactic(auto)]

// The history of a word and its text stand in specs/, their laws in proofs/. The crate has no code.
