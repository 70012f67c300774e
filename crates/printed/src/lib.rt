// What is printed of two files, and the text of an answer: definitions in specs/, claims proved in proofs/. No code.
#![tactic(auto)]
