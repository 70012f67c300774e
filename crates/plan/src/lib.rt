// What is read of two comparable files once a call.
#![tactic(auto)]

ghost use Rattle.std.specs.Prelude.{◌≡◌};
ghost use Rattle.fields.specs.File.{sizes_of};
ghost use Rattle.plan.specs.Comparison.{Comparable};
ghost use Rattle.plan.specs.Plan.{plan_of};

use fields::step_count;
use grid::grid_of;
use sizes::{INPUTS, Sizes};
use vectors::lowest_words;

// N of both files, m, d, the axes of the grid on which the files are compared and the words of the inputs' lowest
// values, with 0 past the last input, and the grid's count of vectors.
#[derive(Clone, Copy)]
pub struct Plan {
    pub n1: usize,
    pub n2: usize,
    pub m: u64,
    pub d: usize,
    pub axes: [u64; INPUTS],
    pub lows: [u64; INPUTS],
    pub size: u64,
}

// Places of a grid, or lines of it: from the first to before the end.
#[derive(Clone, Copy)]
pub struct Span {
    pub from: u64,
    pub end: u64,
}

// The plan of two comparable files, given the sizes of file 1, which file 2 has too.
pub fn plan_of(file1: &[u8], file2: &[u8], z: Sizes) -> Plan
    requires comparable { Comparable file1.now file2.now }
    requires z_value { z ≡ sizes_of file1.now }
    ensures { result ≡ plan_of file1.now file2.now }
{
    // Each array goes into the plan through a variable, which is the form that can be proved.
    let g = grid_of(z);
    let axes = g.axes;
    let lows = lowest_words(z);
    Plan {
        n1: step_count(file1),
        n2: step_count(file2),
        m: u64::from(z.m),
        d: usize::from(z.d),
        axes,
        lows,
        size: g.size,
    }
}
