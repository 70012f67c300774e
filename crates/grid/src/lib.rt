// The grid of given sizes: its axes and its size.
#![tactic(auto)]

ghost use Rattle.std.specs.Prelude.{◌≡◌, min, ◌^◌, ◌≤◌};
ghost use Rattle.bound.specs.Bound.{max_bound};
ghost use Rattle.sizes.specs.Sizes.{Sound};
ghost use Rattle.grid.specs.Grid.{grid_of};

use bound::bound;
use formats::format_of;
use sizes::{INPUTS, Sizes};

// The axes, 0 past the last input, and the count of vectors.
#[derive(Clone, Copy)]
pub struct Grid {
    pub axes: [u64; INPUTS],
    pub size: u64,
}

// The smaller of 2^n and a bound. From n = 7 on 2^n is above every bound.
fn axis(most: u64, n: u64) -> u64
    requires { most ≤ max_bound }
    ensures { (result ≡ min (2 ^ n) most) × (result ≤ max_bound) }
{
    if 7 <= n { most } else { most.min(1 << n) }
}

// The grid of sizes with m from 1 to 64 and at most INPUTS inputs: each axis is the smaller of 2^n and L(m), and the
// size is their product.
pub fn grid_of(z: Sizes) -> Grid
    requires { Sound z }
    ensures { result ≡ grid_of z }
{
    let most = bound(z.m as u64);
    let mut axes = [0u64; INPUTS];
    let mut size: u64 = 1;
    for i in 0..z.d as usize {
        let u = axis(most, format_of(z.widths[i]).length);
        axes[i] = u;
        size *= u;
    }
    Grid { axes, size }
}
