// Lists by a function and sums of lists, in specs/; laws of lists that the kit's libraries lack, in proofs/. No code.
#![tactic(auto)]
