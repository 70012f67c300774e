// Vectors, places and dictionary order: definitions in specs/, laws in proofs/. No code.
#![tactic(auto)]
