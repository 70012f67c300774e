// Two comparable files compared place by place.
#![tactic(auto)]

ghost use Rattle.std.specs.Prelude.{max};
ghost use Rattle.evaluate.specs.Run.{Ready};
ghost use Rattle.lanes.specs.Lanes.{VectorOnGrid};
ghost use Rattle.plan.specs.Comparison.{Searched};
ghost use Rattle.walk.specs.Walk.{Within, Tested};

use evaluate::output_at;
use plan::{Plan, Span};
use vectors::{advance, vector_at};

// Whether the outputs of two accepted files, of n1 and n2 steps, differ at a vector of the grid. Past the larger of
// these no scratch entry is touched.
fn differ_at(
    file1: &[u8],
    n1: usize,
    file2: &[u8],
    n2: usize,
    vector: &[u64],
    scratch: &mut [u64],
) -> bool
    requires ready { Ready file1.now n1 vector.now scratch.old }
    requires ready_2 { Ready file2.now n2 vector.now scratch.old }
    requires vector_on_grid { VectorOnGrid file1.now vector.now }
    ensures { Tested file1.now file2.now (max n1 n2) vector.now scratch.old result
        scratch.new }
{
    let output1 = output_at(file1, n1, vector, scratch);
    let output2 = output_at(file2, n2, vector, scratch);
    output1 != output2
}

// The first place of the span at which the outputs differ, or its end where there is none. The vector of the first
// place is decoded, and each later one is stepped to.
pub fn by_places(file1: &[u8], file2: &[u8], plan: Plan, span: Span, scratch: &mut [u64]) -> u64
    requires { Within file1.now file2.now plan span scratch.old }
    ensures { Searched file1.now file2.now (max plan.n1 plan.n2) span.from span.end
        scratch.old result scratch.new }
{
    let mut v = vector_at(plan.axes, plan.lows, plan.d, span.from);
    for p in span.from..span.end {
        if differ_at(file1, plan.n1, file2, plan.n2, &v, scratch) {
            return p;
        }
        advance(&plan.axes, &plan.lows, plan.d, &mut v);
    }
    span.end
}
