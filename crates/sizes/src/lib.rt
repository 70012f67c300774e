// The sizes of a datapath, and the refusal that every call can answer.
#![tactic(auto)]

ghost use Rattle.std.specs.Prelude.{◌≡◌, ◌<◌};
ghost use Rattle.sizes.specs.Answered.{answered};
ghost use Rattle.sizes.specs.Sizes.{
  within,
  max_inputs,
  output_length,
  input_count,
  bad_widths,
  width_rule,
  refused_by,
  sizes_refusal,
};

use formats::format_of;

// The largest count of inputs.
pub const INPUTS: usize = 10;

// m, the output word length; d, the count of inputs; and the width bytes of the inputs, with 0 past the last.
#[derive(Clone, Copy, PartialEq, Eq)]
pub struct Sizes {
    pub m: u8,
    pub d: u8,
    pub widths: [u8; INPUTS],
}

// Document 01's refusal: its number, the file (1 or 2, else 0) and the step (else 0). Numbers, and no cases: they are
// document 01's own, C has them as words, and the statements of `callers` speak of them.
#[derive(Clone, Copy, PartialEq, Eq)]
pub struct Refusal {
    pub number: u64,
    pub file: u64,
    pub step: u64,
}

// The refusal under a number that shows no file and no step.
pub fn refused_by(number: u64) -> Refusal
    ensures { result ≡ refused_by number }
{
    Refusal {
        number,
        file: 0,
        step: 0,
    }
}

// Whether n is in the range from low to high, ends included. A function of its own, since definitions and edits have it
// by this name.
pub fn within(low: u64, high: u64, n: u64) -> bool
    ensures { result ≡ within low high n }
{
    (low..=high).contains(&n)
}

// Whether m is what condition 2 asks for: 1 to 64.
pub fn is_output_length(m: u64) -> bool
    ensures { result ≡ output_length m }
{
    within(1, 64, m)
}

// Whether d is what condition 3 asks for: 1 to INPUTS.
pub fn is_input_count(d: u64) -> bool
    ensures { result ≡ input_count d }
{
    within(1, INPUTS as u64, d)
}

// Whether width byte i keeps its rule: a word length of 1 to 64 for one of the first d, signed or not, else the byte 0.
#[tactic(auto, unfolding(crate::specs::Sizes::width_rule))]
fn width_rule(z: Sizes, i: usize) -> bool
    requires { i < max_inputs }
    ensures { result ≡ width_rule z i }
{
    let width = z.widths[i];
    if i < usize::from(z.d) {
        within(1, 64, format_of(width).length)
    } else {
        width == 0
    }
}

// Whether a width byte breaks condition 5: a word length of 1 to 64 for the first d, and the whole byte 0 for the
// others.
pub fn bad_widths(z: Sizes) -> bool
    ensures { result ≡ bad_widths z }
{
    !(0..INPUTS).all(|i| width_rule(z, i))
}

// Whether sizes that no file has given are accepted; else what they are refused by: 2, 3 or 5, in this order.
#[tactic(auto, unfolding(crate::specs::Sizes::sizes_refusal, crate::specs::Sizes::bad_output, crate::specs::Sizes::bad_inputs))]
pub fn sizes_refusal(z: Sizes) -> Result<(), Refusal>
    ensures { result ≡ answered (sizes_refusal z) tt }
{
    if !is_output_length(u64::from(z.m)) {
        return Err(refused_by(2));
    }
    if !is_input_count(u64::from(z.d)) {
        return Err(refused_by(3));
    }
    if bad_widths(z) {
        return Err(refused_by(5));
    }
    Ok(())
}
