// Which steps of an accepted file depend on one input. The flags are words, since they stand in the scratch slice that
// the caller lends.
#![tactic(auto)]

ghost use Rattle.std.specs.Prelude.{◌≤◌, ◌<◌, length};
ghost use Rattle.file.specs.Accepted.{Counted};
ghost use Rattle.dependence.specs.Dependence.{Unflagged, MayDepend, DependentListed};

use datapath::Step;
use fields::step_at;

// Whether one of the flags l and r is not 0.
fn either_flagged(flags: &[u64], l: usize, r: usize) -> bool
    requires { (l < length flags.now) × (r < length flags.now) }
    ensures { Unflagged flags.now l r result }
{
    flags[l] != 0 || flags[r] != 0
}

// Whether step k may depend on input j: it is that input, or has an operand that may. The flags of the steps before
// are 0 only where these don't depend on it.
fn may_depend(file: &[u8], n: usize, j: usize, flags: &[u64], k: usize) -> bool
    requires counted { Counted file.now n }
    requires k_lt_n { (k < n) × (k ≤ length flags.now) }
    ensures { MayDepend file.now j flags.now k result }
{
    match step_at(file, n, k) {
        Step::Input(i) => i == j,
        Step::Constant(_) => false,
        Step::Add(l, r) | Step::Subtract(l, r) | Step::Multiply(l, r) => {
            either_flagged(flags, l, r)
        }
    }
}

// Lists the steps that may depend on input j, in increasing order, and answers how many they are. The first n flags
// are overwritten.
pub fn list_dependent(
    file: &[u8],
    n: usize,
    j: usize,
    flags: &mut [u64],
    list: &mut [usize],
) -> usize
    requires counted { Counted file.now n }
    requires n_in_bounds { (n ≤ length flags.old) × (n ≤ length list.old) }
    ensures { DependentListed file.now n j flags.old flags.new list.new result }
{
    let mut count = 0;
    for k in 0..n {
        if may_depend(file, n, j, flags, k) {
            flags[k] = 1;
            list[count] = k;
            count += 1;
        } else {
            flags[k] = 0;
        }
    }
    count
}
