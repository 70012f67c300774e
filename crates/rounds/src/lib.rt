// Differencing and summing along one axis, in place: the cells of every line are joined with their neighbours, in u −
// 1 rounds for an axis u. With the later axes' size w as stride, the lines of one block of u · w cells are worked
// side by side.
#![tactic(auto)]

ghost use Rattle.std.specs.Prelude.{◌≡◌, ◌*◌, ◌%◌, ◌<◌, ◌≤◌, length, pos, ◌+ℤ◌, ◌*ℤ◌};
ghost use Rattle.words.specs.Words.{word};
ghost use Rattle.rounds.specs.Passes.{factor, rounded, passed};

// here + below or here − below, modulo 2^64.
fn join<const SUM: bool>(here: u64, below: u64) -> u64
    ensures { result ≡ word (pos here +ℤ factor SUM *ℤ pos below) }
{
    if SUM {
        here.wrapping_add(below)
    } else {
        here.wrapping_sub(below)
    }
}

// One round: each cell from `from` on is joined with the cell w before it. The last cell is first, so that each meets
// its neighbour's old value.
fn round<const SUM: bool>(cells: &mut [u64], from: usize, w: usize)
    requires { w ≤ from }
    ensures { cells.new ≡ rounded (factor SUM) w from cells.old }
{
    for q in (from..cells.len()).rev() {
        cells[q] = join::<SUM>(cells[q], cells[q - w]);
    }
}

// The lines of one block: u layers of w cells.
fn block<const SUM: bool>(cells: &mut [u64], u: usize, w: usize)
    requires { (0 < length cells.old) × (length cells.old ≡ u * w) }
    ensures { cells.new ≡ passed (factor SUM) u w cells.old }
{
    for r in 1..u {
        round::<SUM>(cells, r * w, w);
    }
}

// All lines of an axis u with the stride w, block by block: entry k of each becomes its k-fold sum or difference.
pub fn pass<const SUM: bool>(cells: &mut [u64], u: usize, w: usize)
    requires { (0 < length cells.old) × (length cells.old % (u * w) ≡ 0) }
    ensures { cells.new ≡ passed (factor SUM) u w cells.old }
{
    let one = u * w;
    for b in 0..cells.len() / one {
        let at = b * one;
        block::<SUM>(&mut cells[at..at + one], u, w);
    }
}
