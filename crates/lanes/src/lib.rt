// The steps of an accepted file run at several vectors at once, a lane of the rows for each: all steps, or those
// alone that depend on one input. The loop over the steps is called with the constants LANES and FEW_LANES, so that it
// is compiled for each.
#![tactic(auto)]

ghost use Rattle.std.specs.Prelude.{ℕ, ◌≤◌, ◌<◌, length};
ghost use Rattle.dependence.specs.Dependence.{Listed};
ghost use Rattle.rows.specs.Rows.{Operands};
ghost use Rattle.lanes.specs.Lanes.{Room, LanesOnGrid, Product, Stepped, Chosen, StepsRun, AllRun, ListedRun};

use datapath::Step;
use fields::{output_length, step_at};
use row_products::{multiply_low_rows, multiply_rows};
use row_sums::{add_rows, subtract_rows};
use rows::{LANES, copy_row, fill_row};

// The lanes of a narrow row, for files of many steps.
pub const FEW_LANES: usize = 8;

// Row k becomes the product of the earlier rows a and b modulo 2^m. Where m is 32 or less it is taken of the low 32
// bits.
#[tactic(auto, using(crate::proofs::Residues::products))]
fn product_row(m: u64, rows: &mut [u64], k: usize, a: usize, b: usize, w: usize)
    requires m_bound { m ≤ 64 }
    requires operands { Operands w rows.old k a b }
    ensures { Product w m rows.old rows.new k a b }
{
    if m <= 32 {
        multiply_low_rows(rows, k, a, b, w);
    } else {
        multiply_rows(rows, k, a, b, w);
    }
}

// Row k becomes the value of step k modulo 2^m, in each lane in which the rows before it hold the values of the steps
// before. Inlined, as step_rows is, so that w is a constant in the loops over the lanes.
#[inline(always)]
fn step_row(file: &[u8], n: usize, inputs: &[u64], rows: &mut [u64], k: usize, w: usize)
    requires room { Room w file.now n inputs.now rows.old }
    requires k_lt_n { k < n }
    requires lanes_on_grid { LanesOnGrid w file.now inputs.now }
    ensures { Stepped w file.now inputs.now rows.old rows.new k }
{
    match step_at(file, n, k) {
        Step::Input(i) => copy_row(inputs, i, rows, k, w),
        Step::Constant(c) => fill_row(rows, k, c, w),
        Step::Add(a, b) => add_rows(rows, k, a, b, w),
        Step::Subtract(a, b) => subtract_rows(rows, k, a, b, w),
        Step::Multiply(a, b) => product_row(output_length(file), rows, k, a, b, w),
    }
}

// The rows of `count` steps become their values modulo 2^m, one after another: of step(0), step(1) and so on.
#[inline(always)]
fn step_rows<F: Fn(usize) -> usize>(
    file: &[u8],
    n: usize,
    inputs: &[u64],
    rows: &mut [u64],
    count: usize,
    step: F,
    w: usize,
)
    requires room { Room w file.now n inputs.now rows.old }
    requires callable { (q : ℕ) → q < count → F.pre step q }
    requires chosen { Chosen n count (F.post step) }
    requires lanes_on_grid { LanesOnGrid w file.now inputs.now }
    ensures { StepsRun w file.now n inputs.now rows.old rows.new count (F.post step) }
{
    for q in 0..count {
        step_row(file, n, inputs, rows, step(q), w);
    }
}

// The same, compiled for each of the two counts of lanes.
fn run_steps<F: Fn(usize) -> usize>(
    file: &[u8],
    n: usize,
    inputs: &[u64],
    rows: &mut [u64],
    count: usize,
    step: F,
    w: usize,
)
    requires room { Room w file.now n inputs.now rows.old }
    requires callable { (q : ℕ) → q < count → F.pre step q }
    requires chosen { Chosen n count (F.post step) }
    requires lanes_on_grid { LanesOnGrid w file.now inputs.now }
    ensures { StepsRun w file.now n inputs.now rows.old rows.new count (F.post step) }
{
    if w == LANES {
        step_rows(file, n, inputs, rows, count, step, LANES);
    } else {
        step_rows(file, n, inputs, rows, count, step, FEW_LANES);
    }
}

// All rows become the values of the steps modulo 2^m. In every lane the vector is on the grid.
pub fn run_all(file: &[u8], n: usize, inputs: &[u64], rows: &mut [u64], w: usize)
    requires room { Room w file.now n inputs.now rows.old }
    requires lanes_on_grid { LanesOnGrid w file.now inputs.now }
    ensures { AllRun w file.now n inputs.now rows.new }
{
    run_steps(file, n, inputs, rows, n, |k| k, w);
}

// The rows of the listed steps alone are computed again. Where the rows hold the values at a vector, modulo 2^m, and
// every step that is not listed does not depend on input j, they then hold the values at a vector that differs from
// it in input j.
pub fn run_listed(file: &[u8], n: usize, inputs: &[u64], rows: &mut [u64], list: &[usize], w: usize)
    requires room { Room w file.now n inputs.now rows.old }
    requires listed { Listed n list.now (length list.now) }
    requires lanes_on_grid { LanesOnGrid w file.now inputs.now }
    ensures { ListedRun w file.now n inputs.now rows.old rows.new
        list.now (length list.now) }
{
    run_steps(file, n, inputs, rows, list.len(), |q| list[q], w);
}
