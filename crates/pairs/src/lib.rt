// The pairs of document 01: the table in specs/, its test in proofs/. No code.
#![tactic(auto)]
