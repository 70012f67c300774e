// Difference tables and their sums: definitions in specs/, laws in proofs/. No code.
#![tactic(auto)]
