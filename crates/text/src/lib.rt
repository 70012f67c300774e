// Text as bytes, and what writing it into a slice is: definitions in specs/, laws in proofs/. No code.
#![tactic(auto)]
