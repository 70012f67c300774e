// Demand 2: summing and differencing undo one another. Its claims in specs/, their proofs in proofs/. No code.
#![tactic(auto)]
