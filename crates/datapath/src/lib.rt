// The steps of a datapath. Their meaning: definitions in specs/, laws in proofs/. No functions.
#![tactic(auto)]

// One step: an input by its index, counted from 0; a constant; or the sum, difference or product of two earlier
// steps, by their indices.
#[derive(Clone, Copy)]
pub enum Step {
    Input(usize),
    Constant(u64),
    Add(usize, usize),
    Subtract(usize, usize),
    Multiply(usize, usize),
}
