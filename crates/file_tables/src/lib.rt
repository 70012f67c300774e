// The difference table of a file. Document 01's number G is the size of the grid.
#![tactic(auto)]

ghost use Rattle.file_tables.specs.FileTables.{TableMade};
ghost use Rattle.file_tables.specs.Filling.{Filling, OutputsFilled, TableFilling, TableFilled};

use evaluate::output_at;
use fields::{read_sizes, step_count};
use file::check;
use grid::{Grid, grid_of};
use sizes::{INPUTS, Refusal, Sizes, refused_by};
use transform::transform_front;
use vectors::{advance, lowest_words, vector_at};

// The outputs of an accepted file at the `count` vectors of the grid, in dictionary order, go into the first entries
// of the table slice. The vector of place 0 is decoded, and each later one is stepped to. Of the scratch slice the
// first n entries are overwritten. The counts d and `count` stand beside their lists, since `Filling` speaks of them.
fn fill_outputs(
    file: &[u8],
    n: usize,
    axes: [u64; INPUTS],
    lows: [u64; INPUTS],
    d: usize,
    count: usize,
    scratch: &mut [u64],
    table: &mut [u64],
)
    requires { Filling file.now n axes lows d count scratch.old table.old }
    ensures { OutputsFilled file.now n count scratch.old table.old
        scratch.new table.new }
{
    let mut v = vector_at(axes, lows, d, 0);
    for y in table[..count].iter_mut() {
        *y = output_at(file, n, &v, scratch);
        advance(&axes, &lows, d, &mut v);
    }
}

// The table of an accepted file with `n` steps, the sizes `z` and the grid `g`, where both slices have room: the
// outputs over the grid, differenced in place. The scratch entries that the steps took are cleared.
fn fill_table(file: &[u8], n: usize, z: Sizes, g: Grid, scratch: &mut [u64], table: &mut [u64])
    requires { TableFilling file.now n z g scratch.old table.old }
    ensures { TableFilled file.now scratch.old table.old
        scratch.new table.new }
{
    let d = usize::from(z.d);
    let m = u64::from(z.m);
    let lows = lowest_words(z);
    let cells = g.size as usize;
    fill_outputs(file, n, g.axes, lows, d, cells, scratch, table);
    transform_front::<false>(table, g.axes, d, cells, m);
    scratch[..n].fill(0);
}

// The difference table of a file. Of the table slice the first G entries become the table: cell k holds the k-fold
// forward difference of the exact values at the lowest values, modulo 2^m, in dictionary order; and the first N scratch
// entries are zero afterwards. Refused under document 01's conditions 1 to 8, 12 and 13, in its order, with both slices
// untouched.
pub fn make_table(file: &[u8], scratch: &mut [u64], table: &mut [u64]) -> Result<(), Refusal>
    ensures { TableMade file.now scratch.old table.old result
        scratch.new table.new }
{
    check(file)?;
    let n = step_count(file);
    if scratch.len() < n {
        return Err(refused_by(12));
    }
    let z = read_sizes(file);
    let g = grid_of(z);
    if table.len() < g.size as usize {
        return Err(refused_by(13));
    }
    fill_table(file, n, z, g, scratch, table);
    Ok(())
}
