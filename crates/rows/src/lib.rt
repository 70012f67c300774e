// Rows of w lanes in a slice: one operation at a time is done on all lanes of a row. The loops are short enough to be
// inlined where w is a constant, and compile to straight-line code there.
#![tactic(auto)]

ghost use Rattle.std.specs.Prelude.{◌≡◌, ℕ, ◌≤◌, ◌<◌, get_or};
ghost use Rattle.rows.specs.Rows.{max_lanes, lane, HasRow, Written, Operands, Zipped};

// The most lanes of a row.
pub const LANES: usize = 16;

// Row k, copied to the first w entries.
pub fn row(rows: &[u64], k: usize, w: usize) -> [u64; LANES]
    requires { (w ≤ max_lanes) × HasRow w rows.now k }
    ensures { (l : ℕ) → l < w → get_or result l 0 ≡ lane w rows.now k l }
{
    let mut x = [0u64; LANES];
    for l in 0..w {
        x[l] = rows[w * k + l];
    }
    x
}

// Row k becomes x in every lane.
pub fn fill_row(rows: &mut [u64], k: usize, x: u64, w: usize)
    requires { HasRow w rows.old k }
    ensures { Written w rows.old rows.new k (λ l. x) }
{
    for l in 0..w {
        rows[w * k + l] = x;
    }
}

// Row k becomes row i of another slice.
pub fn copy_row(source: &[u64], i: usize, rows: &mut [u64], k: usize, w: usize)
    requires w_le_max_lanes { (w ≤ max_lanes) × HasRow w source.now i }
    requires has_row { HasRow w rows.old k }
    ensures { Written w rows.old rows.new k (lane w source.now i) }
{
    let x = row(source, i, w);
    for l in 0..w {
        rows[w * k + l] = x[l];
    }
}

// Row k becomes f of the earlier rows a and b, lane by lane. The operands are copied first: so the machine does several
// lanes at a time.
pub fn zip_rows<F: Fn(u64, u64) -> u64>(
    rows: &mut [u64],
    k: usize,
    a: usize,
    b: usize,
    w: usize,
    f: F,
)
    requires operands { Operands w rows.old k a b }
    requires always_callable { F.IsAlwaysCallable f }
    ensures { Zipped (F.post f) w rows.old rows.new k a b }
{
    let x = row(rows, a, w);
    let y = row(rows, b, w);
    for l in 0..w {
        rows[w * k + l] = f(x[l], y[l]);
    }
}
