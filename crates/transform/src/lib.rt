// Differencing and summing over a grid, in place: along each axis in turn, the last first, and then the cut to m bits.
#![tactic(auto)]

ghost use Rattle.std.specs.Prelude.{◌≡◌, map, ◌++◌, ℕ, ◌%◌, ◌^◌, ◌<◌, ◌≤◌, length, take, drop};
ghost use Rattle.differences.specs.Table.{listed, given};
ghost use Rattle.differences.specs.Neighbours.{mixed};
ghost use Rattle.rounds.specs.Passes.{factor};
ghost use Rattle.places.specs.Places.{size};
ghost use Rattle.words.specs.Words.{word};
ghost use Rattle.transform.specs.Grid.{Lent};
ghost use Rattle.transform.specs.Transform.{transform_of};

use rounds::pass;
use sizes::INPUTS;
use words::cut;

// All axes, the last first.
fn passes<const SUM: bool>(cells: &mut [u64], axes: &[u64])
    requires { (0 < length cells.old) × (size axes.now ≡ length cells.old) }
    ensures { cells.new
        ≡ listed axes.now (λ x. word (mixed (factor SUM) x (given axes.now cells.old))) }
{
    let mut w = 1;
    for i in (0..axes.len()).rev() {
        let u = axes[i] as usize;
        pass::<SUM>(cells, u, w);
        w *= u;
    }
}

// Each cell modulo 2^m.
fn cut_cells(cells: &mut [u64], m: u64)
    ensures { cells.new ≡ map (λ (x : ℕ). x % 2 ^ m) cells.old }
{
    for x in cells.iter_mut() {
        *x = cut(*x, m);
    }
}

// All axes, and the cut to m bits. The sign is a const parameter, so that each is compiled for its own: the machine
// then joins several cells at a time.
fn transform<const SUM: bool>(cells: &mut [u64], axes: &[u64], m: u64)
    requires { (0 < length cells.old) × (size axes.now ≡ length cells.old) × (m ≤ 64) }
    ensures { cells.new ≡ transform_of SUM (2 ^ m) axes.now cells.old }
{
    passes::<SUM>(cells, axes);
    cut_cells(cells, m);
}

// The first `count` cells, one for each vector of the grid with the first d axes, become the outputs that they sum to
// modulo 2^m, or else their difference table. The others are untouched. The counts d and `count` stand beside their
// lists: `Lent`, and the promise about the cells past `count`, speak of both.
pub fn transform_front<const SUM: bool>(
    cells: &mut [u64],
    axes: [u64; INPUTS],
    d: usize,
    count: usize,
    m: u64,
)
    requires { Lent axes d count m (length cells.old) }
    ensures { cells.new
        ≡ transform_of SUM (2 ^ m) (take d axes) (take count cells.old) ++ drop count cells.old }
{
    transform::<SUM>(&mut cells[..count], &axes[..d], m);
}
