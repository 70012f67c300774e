// Evaluating a datapath file at a vector.
#![tactic(auto)]

ghost use Rattle.std.specs.Prelude.{◌≡◌, ◌<◌, ◌≤◌, length};
ghost use Rattle.sizes.specs.Answered.{answered};
ghost use Rattle.sizes.specs.Sizes.{Ruled};
ghost use Rattle.evaluate.specs.Evaluate.{in_range, bad_vector, refusal_at};
ghost use Rattle.evaluate.specs.Run.{step_word, ran, Ready, Running, OutputAt, Evaluates};

use datapath::Step;
use fields::{output_length, read_sizes, step_at, step_count};
use file::check;
use formats::format_of;
use input_words::in_format;
use sizes::{Refusal, Sizes, refused_by};
use words::{cut, wrapping_mul};

// Whether word i of a vector gives a value of input i, which is one of the d.
#[tactic(auto, unfolding(crate::specs::Evaluate::in_range))]
fn in_range(z: Sizes, vector: &[u64], i: usize) -> bool
    requires ruled { Ruled z }
    requires i_lt_d { (i < z.d) × (i < length vector.now) }
    ensures { result ≡ in_range z vector.now i }
{
    in_format(format_of(z.widths[i]), vector[i])
}

// Whether a vector breaks condition 14: there are not exactly d words, or one gives no value of its input.
pub fn bad_vector(z: Sizes, vector: &[u64]) -> bool
    requires { Ruled z }
    ensures { result ≡ bad_vector z vector.now }
{
    let d = usize::from(z.d);
    vector.len() != d || !(0..d).all(|i| in_range(z, vector, i))
}

// The value modulo 2^64 of step k of an accepted file, where the first k scratch entries hold those of the steps
// before it.
#[tactic(auto, using(crate::proofs::Operands::step_words))]
fn step_word(file: &[u8], n: usize, vector: &[u64], scratch: &[u64], k: usize) -> u64
    requires running { Running file.now n vector.now scratch.now k }
    requires k_lt_n { k < n }
    ensures { result ≡ step_word file.now vector.now k }
{
    match step_at(file, n, k) {
        Step::Input(i) => vector[i],
        Step::Constant(c) => c,
        Step::Add(l, r) => scratch[l].wrapping_add(scratch[r]),
        Step::Subtract(l, r) => scratch[l].wrapping_sub(scratch[r]),
        Step::Multiply(l, r) => wrapping_mul(scratch[l], scratch[r]),
    }
}

// The values modulo 2^64 of all steps of an accepted file go into the first n scratch entries.
#[tactic(auto, unfolding(datapath::specs::Steps::values))]
fn run(file: &[u8], n: usize, vector: &[u64], scratch: &mut [u64])
    requires { Ready file.now n vector.now scratch.old }
    ensures { scratch.new ≡ ran file.now n vector.now scratch.old }
{
    for k in 0..n {
        scratch[k] = step_word(file, n, vector, scratch, k);
    }
}

// The output of an accepted file at a vector of at least d words, which stand for any integers with these words. The
// first n scratch entries are overwritten.
pub fn output_at(file: &[u8], n: usize, vector: &[u64], scratch: &mut [u64]) -> u64
    requires { Ready file.now n vector.now scratch.old }
    ensures { OutputAt file.now n vector.now scratch.old result scratch.new }
{
    run(file, n, vector, scratch);
    cut(scratch[n - 1], output_length(file))
}

// Whether evaluating with a scratch slice of `room` entries is accepted; else what it is refused by: what the file is,
// 12 or 14.
#[tactic(auto, using(file::proofs::Checked::checked), unfolding(crate::specs::Evaluate::refusal_at))]
fn refusal_at(file: &[u8], vector: &[u64], room: usize) -> Result<(), Refusal>
    ensures { result ≡ answered (refusal_at file.now vector.now room) tt }
{
    check(file)?;
    if room < step_count(file) {
        return Err(refused_by(12));
    }
    if bad_vector(read_sizes(file), vector) {
        return Err(refused_by(14));
    }
    Ok(())
}

// The output of the file at the vector that the words give, in two's complement for a signed input: the exact value of
// its last step modulo 2^m. Refused under document 01's conditions 1 to 8, 12 and 14, in this order. Afterwards the
// first N scratch entries are zero and the others untouched; a refused call touches none.
pub fn evaluate(file: &[u8], vector: &[u64], scratch: &mut [u64]) -> Result<u64, Refusal>
    ensures { Evaluates file.now vector.now scratch.old result scratch.new }
{
    refusal_at(file, vector, scratch.len())?;
    let n = step_count(file);
    let output = output_at(file, n, vector, scratch);
    scratch[..n].fill(0);
    Ok(output)
}
