// The definition over letters stands in specs/, its laws in proofs/. The crate has no code.
#![tactic(auto)]
