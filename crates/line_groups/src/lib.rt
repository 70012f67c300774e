// Whole lines of the grid compared as many at a time as there are lanes, one group after another.
#![tactic(auto)]

ghost use Rattle.std.specs.Prelude.{◌*◌, ◌≤◌, take};
ghost use Rattle.batches.specs.Prepared.{Prepared};
ghost use Rattle.grid_lines.specs.Lines.{last_axis};
ghost use Rattle.places.specs.Places.{size};
ghost use Rattle.line_groups.specs.Groups.{Lists, Agreed};

use batches::{Shape, set_lanes};
use dependence::list_dependent;
use grid_lines::agreeing_lanes;
use plan::{Plan, Span};
use rows::LANES;
use sizes::INPUTS;

// A line of the span, given in lines, before which, from its first on, the outputs agree everywhere. It goes by as
// many lines as there are lanes; how far it comes is not promised. The first entries of the flags, one for each step,
// are overwritten.
pub fn agreed_lines(
    file1: &[u8],
    file2: &[u8],
    plan: Plan,
    shape: Shape,
    span: Span,
    rows: &mut [u64],
    other: &mut [u64],
    list1: &mut [usize],
    list2: &mut [usize],
    flags: &mut [u64],
) -> u64
    requires prepared { Prepared shape file1.now file2.now plan rows.old other.old }
    requires lists { Lists plan list1.old list2.old flags.old }
    requires from_le_end { (span.from ≤ span.end) × (span.end * last_axis plan ≤ size (take plan.d plan.axes)) }
    ensures { Agreed file1.now file2.now plan span flags.old result flags.new }
{
    let d = plan.d;
    let w = shape.w;
    let count1 = list_dependent(file1, plan.n1, d - 1, flags, list1);
    let count2 = list_dependent(file2, plan.n2, d - 1, flags, list2);
    let mut inputs = [0u64; LANES * INPUTS];
    let wide = w as u64;
    let mut r = span.from;
    // Not a `for`: it ends where fewer lines are left than there are lanes, and that line is the answer.
    while wide <= span.end - r {
        set_lanes(&mut inputs, plan.axes, plan.lows, d - 1, r, w, w);
        let l = agreeing_lanes(
            file1,
            file2,
            plan,
            shape,
            rows,
            other,
            &list1[..count1],
            &list2[..count2],
            &mut inputs,
        );
        if l < w {
            return r + l as u64;
        }
        r += wide;
    }
    r
}
