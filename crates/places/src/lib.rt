// For each letter of a stem the place in the typed word that it came from: the definition stands in specs/, its laws in proofs/. The crate has no code.
#![tactic(auto)]
