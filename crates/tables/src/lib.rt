// The difference table of given outputs, and the outputs that a table sums to. Document 01's number G is the size of
// the grid.
#![tactic(auto)]

ghost use Rattle.tables.specs.Tables.{CellsCall};

use cells::bad_cells;
use grid::grid_of;
use sizes::{Refusal, Sizes, refused_by, sizes_refusal};
use transform::transform_front;

// Summing the first G cells as a table, or else differencing them as outputs. Of the result slice the first G entries
// become, in dictionary order: where `sum`, the sums at every vector x of the grid, each cell k times the binomials
// (xi choose ki), with xi counted from its lowest value, added and reduced modulo 2^m; else the difference table, whose
// cell k holds the k-fold forward difference at the lowest values, modulo 2^m. Refused under document 01's conditions
// 2, 3, 5 and 13, in this order, with the slice untouched.
pub fn transform_cells(z: Sizes, cells: &[u64], res: &mut [u64], sum: bool) -> Result<(), Refusal>
    ensures { CellsCall z cells.now sum res.old result res.new }
{
    sizes_refusal(z)?;
    let grid = grid_of(z);
    let count = grid.size as usize;
    let d = usize::from(z.d);
    let m = u64::from(z.m);
    if bad_cells(cells, res.len(), count, m) {
        return Err(refused_by(13));
    }
    res[..count].copy_from_slice(&cells[..count]);
    // The flag is a parameter of a public function; from here on the sign is a const parameter.
    if sum {
        transform_front::<true>(res, grid.axes, d, count, m);
    } else {
        transform_front::<false>(res, grid.axes, d, count, m);
    }
    Ok(())
}
