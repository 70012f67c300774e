// What differencing and summing refuse beside sizes: slices that are too short, and cells that are too large.
#![tactic(auto)]

ghost use Rattle.std.specs.Prelude.{◌≡◌, ◌==◌, ◌%◌, ◌^◌, not};
ghost use Rattle.std.specs.List.{list_any};
ghost use Rattle.cells.specs.Cells.{bad_cells};

use words::cut;

// Whether one of the cells is 2^m or more.
fn large_cell(cells: &[u64], m: u64) -> bool
    ensures { result ≡ list_any (λ x. not (x % 2 ^ m == x)) cells.now }
{
    cells.iter().any(|x| cut(*x, m) != *x)
}

// Whether the cells that are read, or the count of entries to write, break condition 13; `count` is the size of the
// grid.
#[tactic(auto, using(crate::proofs::Answers::judged_any), unfolding(crate::specs::Cells::bad_cells))]
pub fn bad_cells(cells: &[u64], len: usize, count: usize, m: u64) -> bool
    ensures { result ≡ bad_cells m count cells.now len }
{
    cells.len() < count || len < count || large_cell(&cells[..count], m)
}
