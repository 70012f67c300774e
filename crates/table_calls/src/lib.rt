// The calls on difference tables, in words. Each returns 1 where its layout is right, and 0, with nothing touched, where
// it is not. Sizes are words: m, d and the width bytes, of which each fits a byte.
#![tactic(auto)]

ghost use Rattle.table_calls.specs.TableCalls.{TableCall, TransformCall};

use file_tables::make_table;
use refusal_words::{REFUSAL_LENGTH, put_refusal};
use size_words::sizes_given;
use tables::transform_cells;

// The table of a file: out gets the refusal. Where the call is accepted, the first G table entries become the table,
// and the first N scratch entries are zero afterwards; nothing else is touched.
pub fn table_call(file: &[u8], scratch: &mut [u64], table: &mut [u64], out: &mut [u64]) -> u32
    ensures { TableCall file.now scratch.old table.old out.old result
        scratch.new table.new out.new }
{
    if out.len() != REFUSAL_LENGTH {
        return 0;
    }
    put_refusal(out, make_table(file, scratch, table));
    1
}

// The outputs that a table sums to, or the table of given outputs: out gets the refusal. Where the call is accepted,
// the first G entries of the result become the sums or the differences of the cells; nothing else is touched.
pub fn transform_call(
    sizes: &[u64],
    cells: &[u64],
    res: &mut [u64],
    out: &mut [u64],
    sum: bool,
) -> u32
    ensures { TransformCall sum sizes.now cells.now res.old out.old result
        res.new out.new }
{
    if out.len() != REFUSAL_LENGTH {
        return 0;
    }
    let Some(z) = sizes_given(sizes) else {
        return 0;
    };
    put_refusal(out, transform_cells(z, cells, res, sum));
    1
}
