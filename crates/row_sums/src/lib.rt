// Sums and differences of rows.
#![tactic(auto)]

ghost use Rattle.rows.specs.Rows.{Written, Operands};
ghost use Rattle.row_sums.specs.Sums.{row_sums, row_differences};

use rows::zip_rows;

// Row k becomes the sum of the earlier rows a and b modulo 2^64.
pub fn add_rows(rows: &mut [u64], k: usize, a: usize, b: usize, w: usize)
    requires { Operands w rows.old k a b }
    ensures { Written w rows.old rows.new k (row_sums w rows.old a b) }
{
    zip_rows(rows, k, a, b, w, |x, y| x.wrapping_add(y));
}

// Row k becomes the difference of the earlier rows a and b modulo 2^64.
pub fn subtract_rows(rows: &mut [u64], k: usize, a: usize, b: usize, w: usize)
    requires { Operands w rows.old k a b }
    ensures { Written w rows.old rows.new k (row_differences w rows.old a b) }
{
    zip_rows(rows, k, a, b, w, |x, y| x.wrapping_sub(y));
}
