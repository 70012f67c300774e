// What a caller in C may rely on over a whole list of calls: statements in specs/, proofs in proofs/. There is no code.
#![tactic(auto)]
