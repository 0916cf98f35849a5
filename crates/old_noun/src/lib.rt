// The definition before request A8 stands in specs/, the proof that it is equal to the present one in proofs/. The crate has no code.
#![tactic(auto)]
