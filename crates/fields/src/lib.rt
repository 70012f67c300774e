// The fields of a datapath file, read from its bytes, and its steps.
#![tactic(auto)]

ghost use Rattle.std.specs.Prelude.{◌≡◌, ◌+◌, ◌*◌, ◌^◌, ◌≤◌, ◌<◌, length, take, drop};
ghost use Rattle.sizes.specs.Padded.{padded};
ghost use Rattle.sizes.specs.Sizes.{max_inputs};
ghost use Rattle.fields.specs.File.{
  width_bytes,
  widths_from,
  short_head,
  sizes_of,
  head_of,
  step_count,
  operation,
  argument,
  left_operand,
  right_operand,
  HasStep,
};
ghost use Rattle.fields.specs.Steps.{step_at};

use datapath::Step;
use sizes::{INPUTS, Sizes};
use words::{le16, le64};

// Where the width bytes of the inputs begin.
const WIDTHS: usize = 4;

// The most inputs of a file with a short head, which has a width byte for each of these.
const SHORT_INPUTS: usize = 8;

// The bytes of a short head, the least that a file has.
pub const SHORT_HEAD: usize = WIDTHS + SHORT_INPUTS;

// The bytes of a long head, which has a width byte for each input that a file may have.
pub const LONG_HEAD: usize = WIDTHS + INPUTS;

// The largest count of steps.
pub const STEPS: usize = 1024;

// m alone, the output word length.
#[tactic(auto, unfolding(crate::specs::File::sizes_of))]
pub fn output_length(file: &[u8]) -> u64
    requires { short_head ≤ length file.now }
    ensures { result ≡ (sizes_of file.now).m }
{
    u64::from(file[0])
}

// d alone, the count of inputs.
#[tactic(auto, unfolding(crate::specs::File::sizes_of))]
pub fn input_count(file: &[u8]) -> u64
    requires { short_head ≤ length file.now }
    ensures { result ≡ (sizes_of file.now).d }
{
    u64::from(file[1])
}

// The width bytes of a file with d inputs.
#[tactic(auto, unfolding(crate::specs::File::width_bytes))]
fn width_bytes(d: u64) -> usize
    ensures { result ≡ width_bytes d }
{
    if d <= SHORT_INPUTS as u64 {
        SHORT_INPUTS
    } else {
        INPUTS
    }
}

// The bytes of the file's head, before the operation bytes.
#[tactic(auto, unfolding(crate::specs::File::width_bytes))]
pub fn head_of(file: &[u8]) -> usize
    requires { short_head ≤ length file.now }
    ensures { result ≡ head_of file.now }
{
    WIDTHS + width_bytes(input_count(file))
}

// The first N width bytes, and 0 after them. N is a constant, so that the copy is compiled for each.
fn read_widths<const N: usize>(file: &[u8]) -> [u8; INPUTS]
    requires { (N ≤ max_inputs) × (widths_from + N ≤ length file.now) }
    ensures { result ≡ padded (take N (drop widths_from file.now)) }
{
    let mut widths = [0u8; INPUTS];
    widths[..N].copy_from_slice(&file[WIDTHS..WIDTHS + N]);
    widths
}

// The width bytes, with 0 for those that the head does not have.
#[tactic(auto, unfolding(crate::specs::File::sizes_of, crate::specs::File::width_bytes))]
fn widths_of(file: &[u8]) -> [u8; INPUTS]
    requires { head_of file.now ≤ length file.now }
    ensures { result ≡ (sizes_of file.now).widths }
{
    if head_of(file) == SHORT_HEAD {
        read_widths::<SHORT_INPUTS>(file)
    } else {
        read_widths::<INPUTS>(file)
    }
}

// m, d and the width bytes.
#[tactic(auto, unfolding(crate::specs::File::sizes_of, crate::specs::File::width_bytes))]
pub fn read_sizes(file: &[u8]) -> Sizes
    requires { head_of file.now ≤ length file.now }
    ensures { result ≡ sizes_of file.now }
{
    Sizes {
        m: file[0],
        d: file[1],
        widths: widths_of(file),
    }
}

// N, the count of steps.
#[tactic(auto, unfolding(crate::specs::File::step_count))]
pub fn step_count(file: &[u8]) -> usize
    requires { short_head ≤ length file.now }
    ensures { (result ≡ step_count file.now) × (result < 2 ^ 16) }
{
    le16(file, 2) as usize
}

// The operation byte of step k, given N. It is counted from the end of the file, where the steps stand whatever the
// head: what the engine does for each step reads nothing of the head.
#[tactic(auto, unfolding(crate::specs::File::operation))]
pub fn operation(file: &[u8], n: usize, k: usize) -> u8
    requires { HasStep file.now n k }
    ensures { (result ≡ operation file.now k) × (result < 2 ^ 8) }
{
    file[file.len() - 9 * n + k]
}

// The argument of step k, given N, counted from the end of the file too.
#[tactic(auto, unfolding(crate::specs::File::argument))]
pub fn argument(file: &[u8], n: usize, k: usize) -> u64
    requires { HasStep file.now n k }
    ensures { (result ≡ argument file.now k) × (result < 2 ^ 64) }
{
    le64(file, file.len() - 8 * n + 8 * k)
}

// Of an argument of 64 bits: the left step, in the low 16 bits.
pub fn left_operand(a: u64) -> usize
    ensures { (result ≡ left_operand a) × (result < 2 ^ 16) }
{
    (a % 65536) as usize
}

// The right step, in the next 16 bits.
pub fn right_operand(a: u64) -> usize
    ensures { (result ≡ right_operand a) × (result < 2 ^ 16) }
{
    (a / 65536 % 65536) as usize
}

// Step k, given N, decoded from its operation byte and its argument. An operation byte past 5, which no accepted file
// has, reads as 5.
#[tactic(auto, unfolding(crate::specs::Steps::step_at, crate::specs::Steps::decoded))]
pub fn step_at(file: &[u8], n: usize, k: usize) -> Step
    requires { HasStep file.now n k }
    ensures { result ≡ step_at file.now k }
{
    let a = argument(file, n, k);
    match operation(file, n, k) {
        1 => Step::Input(a as usize),
        2 => Step::Constant(a),
        3 => Step::Add(left_operand(a), right_operand(a)),
        4 => Step::Subtract(left_operand(a), right_operand(a)),
        _ => Step::Multiply(left_operand(a), right_operand(a)),
    }
}
