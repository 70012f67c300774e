// The layouts of the C interface: sizes, sessions, refusals and answers as words, and what holds of them. Definitions
// and laws; no code.
#![tactic(auto)]
