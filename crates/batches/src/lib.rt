// Two comparable files compared in batches of consecutive places of the grid, a lane for each.
#![tactic(auto)]

ghost use Rattle.std.specs.Prelude.{◌*◌, ◌≤◌, ◌<◌, length, take};
ghost use Rattle.places.specs.Places.{size};
ghost use Rattle.plan.specs.Comparison.{Found};
ghost use Rattle.sizes.specs.Sizes.{max_inputs};
ghost use Rattle.batches.specs.Batch.{Live, LanesSet, Lowest, DeadOnGrid, BatchRun};
ghost use Rattle.batches.specs.Prepared.{Prepared};

use lanes::run_all;
use plan::Plan;
use row_lanes::{first_unequal, set_column};
use rows::{LANES, copy_row, fill_row};
use sizes::INPUTS;
use vectors::{advance, vector_at};

// The largest value of an axis.
pub const AXIS: usize = 66;

// How two files are run in lanes: the lanes of a row, and whether the files are run in turn in the same rows or have
// rows of their own each. Each way has its own contracts, so that a test once a batch tells them apart.
#[derive(Clone, Copy)]
pub struct Shape {
    pub w: usize,
    pub turn: bool,
}

// The first `live` lanes of the input rows become the vectors from place p on, of the grid with the first d of the
// axes, above the words lows; rows past d become lows. The other lanes stay as they were.
pub fn set_lanes(
    inputs: &mut [u64],
    axes: [u64; INPUTS],
    lows: [u64; INPUTS],
    d: usize,
    p: u64,
    live: usize,
    w: usize,
)
    requires d_le_max_inputs { d ≤ max_inputs }
    requires live { Live w (take d axes) p live inputs.old }
    ensures { LanesSet w lows (take d axes) p live inputs.old inputs.new }
{
    let mut v = vector_at(axes, lows, d, p);
    set_column(inputs, 0, v, w);
    for l in 1..live {
        advance(&axes, &lows, d, &mut v);
        set_column(inputs, l, v, w);
    }
}

// Where there are fewer places than lanes, every lane of the rows of the first d inputs becomes their lowest values, so
// that lanes in which no place is set hold a vector of the grid.
fn fill_lanes(inputs: &mut [u64], lows: [u64; INPUTS], d: usize, places: u64, w: usize)
    requires { (d ≤ max_inputs) × (w * max_inputs ≤ length inputs.old) }
    ensures { places < w → Lowest w d lows inputs.new }
{
    if w as u64 <= places {
        return;
    }
    for i in 0..d {
        fill_row(inputs, i, lows[i], w);
    }
}

// The first of `live` lanes in which the outputs differ at the places from p on, or `live` where there is none. The
// steps run in all lanes: those past the live ones hold a vector of the grid too, before and after. In turn, the
// output row of file 1 is saved before file 2 is run in the same rows.
fn first_in_batch(
    file1: &[u8],
    file2: &[u8],
    plan: Plan,
    shape: Shape,
    p: u64,
    live: usize,
    inputs: &mut [u64],
    rows: &mut [u64],
    other: &mut [u64],
) -> usize
    requires prepared { Prepared shape file1.now file2.now plan rows.old other.old }
    requires live { Live shape.w (take plan.d plan.axes) p live inputs.old }
    requires dead_on_grid { DeadOnGrid shape.w file1.now live inputs.old }
    ensures { BatchRun shape.w file1.now file2.now p live inputs.new result }
{
    let w = shape.w;
    set_lanes(inputs, plan.axes, plan.lows, plan.d, p, live, w);
    run_all(file1, plan.n1, inputs, rows, w);
    if shape.turn {
        copy_row(rows, plan.n1 - 1, other, 0, w);
        run_all(file2, plan.n2, inputs, rows, w);
        return first_unequal(other, 0, rows, plan.n2 - 1, plan.m, live, w);
    }
    run_all(file2, plan.n2, inputs, other, w);
    first_unequal(rows, plan.n1 - 1, other, plan.n2 - 1, plan.m, live, w)
}

// The first place from `from` to before `end` at which the outputs differ, or `end` where there is none.
pub fn by_batches(
    file1: &[u8],
    file2: &[u8],
    plan: Plan,
    shape: Shape,
    from: u64,
    end: u64,
    rows: &mut [u64],
    other: &mut [u64],
) -> u64
    requires prepared { Prepared shape file1.now file2.now plan rows.old other.old }
    requires from_le_end { (from ≤ end) × (end ≤ size (take plan.d plan.axes)) }
    ensures { Found file1.now file2.now from end result }
{
    let mut inputs = [0u64; LANES * INPUTS];
    fill_lanes(&mut inputs, plan.lows, plan.d, end - from, shape.w);
    let wide = shape.w as u64;
    let mut p = from;
    // Not a `for`: how far p goes is found in the loop.
    while p < end {
        let live = wide.min(end - p);
        let l = first_in_batch(
            file1,
            file2,
            plan,
            shape,
            p,
            live as usize,
            &mut inputs,
            rows,
            other,
        ) as u64;
        p += l;
        if l < live {
            return p;
        }
    }
    p
}
