// Writing the front of a slice: clearing it, and copying over it. Each is one call of the library, under the name that
// its definition and its edits have.
#![tactic(auto)]

ghost use Rattle.std.specs.Prelude.{◌≡◌, ◌≤◌, length};
ghost use Rattle.slices.specs.Slices.{cleared, overwritten};

// The first n entries are set to zero.
pub fn clear(slice: &mut [u64], n: usize)
    requires { n ≤ length slice.old }
    ensures { slice.new ≡ cleared n slice.old }
{
    slice[..n].fill(0);
}

// The first n entries of one slice are copied over those of another.
pub fn copy_front(from: &[u64], to: &mut [u64], n: usize)
    requires { (n ≤ length from.now) × (n ≤ length to.old) }
    ensures { to.new ≡ overwritten n from.now to.old }
{
    to[..n].copy_from_slice(&from[..n]);
}
