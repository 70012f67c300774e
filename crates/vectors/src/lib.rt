// The vectors of a grid, as the machine holds them: the one at a place, and the one after another. Of each input the
// grid has consecutive values from its lowest up, as many as its axis; lows are the words of the lowest values.
#![tactic(auto)]

ghost use Rattle.std.specs.Prelude.{◌≡◌, ◌<◌, ◌≤◌, length, take};
ghost use Rattle.places.specs.Places.{size};
ghost use Rattle.sizes.specs.Padded.{padded};
ghost use Rattle.sizes.specs.Sizes.{max_inputs, Ruled};
ghost use Rattle.vectors.specs.Vectors.{low_words, HoldsVector, Arrays, Placed, Next};

use formats::format_of;
use input_words::{lowest_value, word_of};
use sizes::{INPUTS, Sizes};

// The words of the lowest values of the inputs, with 0 past the last input.
pub fn lowest_words(z: Sizes) -> [u64; INPUTS]
    requires { Ruled z }
    ensures { result ≡ padded (low_words z) }
{
    let mut lows = [0u64; INPUTS];
    for i in 0..z.d as usize {
        lows[i] = word_of(lowest_value(format_of(z.widths[i])));
    }
    lows
}

// The vector at place p of the grid with the first d of the axes: the digits of p above the lowest values, the last
// input varying fastest. The entries past d are those of lows.
pub fn vector_at(axes: [u64; INPUTS], lows: [u64; INPUTS], d: usize, p: u64) -> [u64; INPUTS]
    requires d_le_max_inputs { d ≤ max_inputs }
    requires p_bound { p < size (take d axes) }
    ensures { HoldsVector lows (take d axes) p result }
{
    let mut v = lows;
    let mut rest = p;
    for i in (0..d).rev() {
        v[i] = lows[i].wrapping_add(rest % axes[i]);
        rest /= axes[i];
    }
    v
}

// v, one of the grid's vectors, becomes the one at the next place: from the last input backwards, an input at its last
// value goes to its lowest, and the first that isn't goes up by 1. Where v is the last vector of all, nothing is
// promised of what it becomes.
pub fn advance(axes: &[u64], lows: &[u64], d: usize, v: &mut [u64])
    requires arrays { Arrays lows.now (take d axes.now) }
    requires d_in_bounds { (d ≤ length axes.now) × (d ≤ length v.old) }
    requires placed { Placed lows.now (take d axes.now) v.old }
    ensures { Next lows.now (take d axes.now) v.old v.new }
{
    for i in (0..d).rev() {
        let x = v[i].wrapping_add(1);
        if x.wrapping_sub(lows[i]) < axes[i] {
            v[i] = x;
            return;
        }
        v[i] = lows[i];
    }
}
