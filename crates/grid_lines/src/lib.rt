// Two comparable files compared along several lines of the grid, a lane for each.
#![tactic(auto)]

ghost use Rattle.std.specs.Prelude.{◌≡◌, ◌≤◌, true, false};
ghost use Rattle.batches.specs.Prepared.{Prepared};
ghost use Rattle.sizes.specs.Sizes.{max_inputs};
ghost use Rattle.grid_lines.specs.Lines.{along_of, Dependents, Fronts, Agreeing};

use batches::Shape;
use line_outputs::{Along, matching_lanes, refresh, save_outputs};
use plan::Plan;
use row_lanes::first_unequal;
use rows::fill_row;

// How a file of n steps is run along the lines of a plan, in w lanes.
fn along_lines(plan: Plan, n: usize, w: usize) -> Along
    requires { (1 ≤ plan.d) × (plan.d ≤ max_inputs) }
    ensures { result ≡ along_of plan n w }
{
    let last = plan.d - 1;
    Along {
        n,
        d: plan.d,
        u: plan.axes[last],
        low: plan.lows[last],
        w,
    }
}

// A count of first lanes that agree in the outputs at every count of the last input below its axis; that the lane after
// them does not is not promised. Each file has rows of its own. The input rows before the last hold the other inputs of
// each lane. All lanes are on the grid.
fn agreeing_apart(
    file1: &[u8],
    file2: &[u8],
    plan: Plan,
    shape: Shape,
    rows: &mut [u64],
    other: &mut [u64],
    list1: &[usize],
    list2: &[usize],
    inputs: &mut [u64],
) -> usize
    requires prepared { Prepared shape file1.now file2.now plan rows.old other.old }
    requires turn_value { shape.turn ≡ false }
    requires dependents { Dependents file1.now file2.now plan list1.now list2.now }
    requires fronts { Fronts shape.w file1.now plan inputs.old }
    ensures { Agreeing shape.w file1.now file2.now plan inputs.old result }
{
    let along1 = along_lines(plan, plan.n1, shape.w);
    let along2 = along_lines(plan, plan.n2, shape.w);
    let mut agreeing = shape.w;
    for t in 0..along1.u {
        fill_row(inputs, plan.d - 1, along1.low.wrapping_add(t), shape.w);
        refresh(file1, along1, inputs, rows, list1, t);
        refresh(file2, along2, inputs, other, list2, t);
        agreeing = first_unequal(
            rows,
            plan.n1 - 1,
            other,
            plan.n2 - 1,
            plan.m,
            agreeing,
            shape.w,
        );
        if agreeing == 0 {
            return 0;
        }
    }
    agreeing
}

// The same with the files run in turn: file 1 along the lines, its outputs saved, then file 2 in the same rows. It goes
// another way than agreeing_apart, which runs both files at each place.
fn agreeing_in_turn(
    file1: &[u8],
    file2: &[u8],
    plan: Plan,
    shape: Shape,
    rows: &mut [u64],
    other: &mut [u64],
    list1: &[usize],
    list2: &[usize],
    inputs: &mut [u64],
) -> usize
    requires prepared { Prepared shape file1.now file2.now plan rows.old other.old }
    requires turn_value { shape.turn ≡ true }
    requires dependents { Dependents file1.now file2.now plan list1.now list2.now }
    requires fronts { Fronts shape.w file1.now plan inputs.old }
    ensures { Agreeing shape.w file1.now file2.now plan inputs.old result }
{
    let along1 = along_lines(plan, plan.n1, shape.w);
    let along2 = along_lines(plan, plan.n2, shape.w);
    save_outputs(file1, along1, rows, list1, inputs, other);
    matching_lanes(file2, along2, rows, list2, inputs, other)
}

// The same, in turn or not.
pub fn agreeing_lanes(
    file1: &[u8],
    file2: &[u8],
    plan: Plan,
    shape: Shape,
    rows: &mut [u64],
    other: &mut [u64],
    list1: &[usize],
    list2: &[usize],
    inputs: &mut [u64],
) -> usize
    requires prepared { Prepared shape file1.now file2.now plan rows.old other.old }
    requires dependents { Dependents file1.now file2.now plan list1.now list2.now }
    requires fronts { Fronts shape.w file1.now plan inputs.old }
    ensures { Agreeing shape.w file1.now file2.now plan inputs.old result }
{
    if shape.turn {
        return agreeing_in_turn(file1, file2, plan, shape, rows, other, list1, list2, inputs);
    }
    agreeing_apart(file1, file2, plan, shape, rows, other, list1, list2, inputs)
}
