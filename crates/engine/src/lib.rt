// The engine: two files compared over the places of the grid.
#![tactic(auto)]

ghost use Rattle.std.specs.Prelude.{◌≡◌, ◌+◌, ◌*◌, ◌≤◌, max, length};
ghost use Rattle.plan.specs.Comparison.{Searched};
ghost use Rattle.plan.specs.Plan.{Planned};
ghost use Rattle.walk.specs.Walk.{Within};
ghost use Rattle.engine.specs.Lengths.{Enough, long_rows};
ghost use Rattle.file.specs.Check.{max_steps};
ghost use Rattle.lanes.specs.Lanes.{Width};

use batches::{AXIS, Shape};
use fields::STEPS;
use lanes::FEW_LANES;
use plan::{Plan, Span};
use rows::LANES;
use spans::by_lines;
use walk::by_places;

// The most steps of a short file, and of one of middle length.
const SHORT: usize = 64;

const MIDDLE: usize = 256;

// The words of the rows of each: all steps, of long files in few lanes.
const SHORT_ROWS: usize = LANES * SHORT;

const MIDDLE_ROWS: usize = LANES * MIDDLE;

const LONG_ROWS: usize = FEW_LANES * STEPS;

// The words of the outputs of a line in all lanes.
const OUTPUTS: usize = LANES * AXIS;

// The first place of the span at which the outputs differ, or its end where there is none, in lanes, for files whose
// steps have room in the ROWS words of the rows and in lists of LIST entries. Files that are run in turn share their
// rows, and others have OTHER words of their own each. The rows are set up here, where lanes are really run.
fn in_lanes<const ROWS: usize, const OTHER: usize, const LIST: usize>(
    file1: &[u8],
    file2: &[u8],
    plan: Plan,
    shape: Shape,
    span: Span,
    scratch: &mut [u64],
) -> u64
    requires within { Within file1.now file2.now plan span scratch.old }
    requires enough { Enough shape plan ROWS OTHER LIST }
    requires small { (ROWS ≤ long_rows) × (OTHER ≤ long_rows) × (LIST ≤ long_rows) }
    ensures { Searched file1.now file2.now (max plan.n1 plan.n2) span.from span.end
        scratch.old result scratch.new }
{
    let mut rows = [0u64; ROWS];
    let mut other = [0u64; OTHER];
    let mut list1 = [0usize; LIST];
    let mut list2 = [0usize; LIST];
    by_lines(
        file1, file2, plan, shape, span, &mut rows, &mut other, &mut list1, &mut list2, scratch,
    )
}

// The lanes for long files of at most n steps: all where the rows have room for these, and few otherwise.
fn long_lanes(n: usize) -> usize
    requires { n ≤ max_steps }
    ensures { Width result × (result * n ≤ long_rows) }
{
    if LANES * n <= LONG_ROWS {
        LANES
    } else {
        FEW_LANES
    }
}

// The larger of two counts. A function of its own, since its edit stands on it.
pub fn larger(a: usize, b: usize) -> usize
    ensures { result ≡ max a b }
{
    a.max(b)
}

// The first place among the `count` from `from` on at which the outputs of two comparable files differ, or the end of
// these where there is none. Fewer places than lanes are compared one by one, more in lanes. Past the larger N no
// scratch entry is touched.
#[tactic(auto, using(crate::proofs::Empty::first_of_none))]
pub fn first_difference(
    file1: &[u8],
    file2: &[u8],
    plan: Plan,
    from: u64,
    count: u64,
    scratch: &mut [u64],
) -> u64
    requires planned { Planned file1.now file2.now plan }
    requires count_bound { from + count ≤ plan.size }
    requires n2_in_bounds { max plan.n1 plan.n2 ≤ length scratch.old }
    ensures { Searched file1.now file2.now (max plan.n1 plan.n2) from (from + count)
        scratch.old result scratch.new }
{
    if count == 0 {
        return from;
    }
    let end = from + count;
    let span = Span { from, end };
    if count < LANES as u64 {
        return by_places(file1, file2, plan, span, scratch);
    }
    let n = larger(plan.n1, plan.n2);
    if n <= SHORT {
        let shape = Shape {
            w: LANES,
            turn: false,
        };
        return in_lanes::<SHORT_ROWS, SHORT_ROWS, SHORT>(file1, file2, plan, shape, span, scratch);
    }
    if n <= MIDDLE {
        let shape = Shape {
            w: LANES,
            turn: true,
        };
        return in_lanes::<MIDDLE_ROWS, OUTPUTS, MIDDLE>(file1, file2, plan, shape, span, scratch);
    }
    let shape = Shape {
        w: long_lanes(n),
        turn: true,
    };
    in_lanes::<LONG_ROWS, OUTPUTS, STEPS>(file1, file2, plan, shape, span, scratch)
}
