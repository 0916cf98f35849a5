// The steps in another order, and what comes of it, stand in specs/, the proofs in proofs/. The crate has no code.
#![tactic(auto)]
