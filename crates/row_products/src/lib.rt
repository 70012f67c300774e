// Products of rows.
#![tactic(auto)]

ghost use Rattle.rows.specs.Rows.{Written, Operands};
ghost use Rattle.row_products.specs.Products.{row_products, row_low_products};

use rows::zip_rows;
use words::wrapping_mul;

// Row k becomes the product of the earlier rows a and b modulo 2^64.
pub fn multiply_rows(rows: &mut [u64], k: usize, a: usize, b: usize, w: usize)
    requires { Operands w rows.old k a b }
    ensures { Written w rows.old rows.new k (row_products w rows.old a b) }
{
    // Not zip_rows: with it the operands are read into single words before the product is chosen, and of 8 lanes the
    // low halves are then multiplied one at a time: half as many instructions more.
    for l in 0..w {
        let x = rows[w * a + l];
        let y = rows[w * b + l];
        rows[w * k + l] = wrapping_mul(x, y);
    }
}

// Row k becomes the product of the low 32 bits of the earlier rows a and b, which the machine does for several lanes
// at a time. Modulo 2^32 it is the product of the rows.
pub fn multiply_low_rows(rows: &mut [u64], k: usize, a: usize, b: usize, w: usize)
    requires { Operands w rows.old k a b }
    ensures { Written w rows.old rows.new k (row_low_products w rows.old a b) }
{
    zip_rows(rows, k, a, b, w, |x, y| (x % 4294967296) * (y % 4294967296));
}
