// Single lanes of rows: a vector is set in one lane of the inputs' rows, and two rows are compared lane by lane.
#![tactic(auto)]

ghost use Rattle.std.specs.Prelude.{◌≡◌, ◌*◌, ◌≤◌, ◌<◌, length};
ghost use Rattle.rows.specs.Rows.{HasRow};
ghost use Rattle.ranges.specs.Search.{first};
ghost use Rattle.sizes.specs.Sizes.{max_inputs};
ghost use Rattle.row_lanes.specs.Lanes.{Column, unequal};

use sizes::INPUTS;
use words::cut;

// Lane l of the first INPUTS rows becomes v.
pub fn set_column(rows: &mut [u64], l: usize, v: [u64; INPUTS], w: usize)
    requires { (l < w) × (w * max_inputs ≤ length rows.old) }
    ensures { Column w rows.old rows.new l v }
{
    for i in 0..INPUTS {
        rows[w * i + l] = v[i];
    }
}

// The first of `live` lanes in which row a of one slice and row b of another differ modulo 2^m, or `live` where there
// is none.
pub fn first_unequal(
    rows1: &[u64],
    a: usize,
    rows2: &[u64],
    b: usize,
    m: u64,
    live: usize,
    w: usize,
) -> usize
    requires { HasRow w rows1.now a × HasRow w rows2.now b × (live ≤ w) }
    ensures { result ≡ first (unequal w m rows1.now a rows2.now b) 0 live }
{
    for l in 0..live {
        if cut(rows1[w * a + l], m) != cut(rows2[w * b + l], m) {
            return l;
        }
    }
    live
}
