// Bounded search over the natural numbers: definitions in specs/, laws in proofs/. No code.
#![tactic(auto)]
