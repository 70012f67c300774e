// Sizes as words, read and written: m, d and the width bytes, each of which has to fit a byte.
#![tactic(auto)]

ghost use Rattle.std.specs.Prelude.{◌≡◌, ◌≤◌, length, if◌then◌else◌, Some, None};
ghost use Rattle.layouts.specs.Lengths.{sizes_length};
ghost use Rattle.layouts.specs.SizeWords.{
  size_words,
  size_bytes,
  SizeBytes,
  sizes_fit,
  sizes_from,
};
ghost use Rattle.slices.specs.Slices.{overwritten};

use sizes::{INPUTS, Sizes};

// Where the width bytes stand.
const AT_WIDTHS: usize = 2;

// The words of sizes: m, d and the width bytes.
pub const SIZES_LENGTH: usize = AT_WIDTHS + INPUTS;

// Whether each of the first words, as many as sizes have, fits a byte.
pub fn size_bytes(words: &[u64]) -> bool
    requires { sizes_length ≤ length words.now }
    ensures { result ≡ size_bytes words.now }
{
    words[..SIZES_LENGTH].iter().all(|&word| word < 256)
}

// The sizes that the first words give.
pub fn sizes_from(words: &[u64]) -> Sizes
    requires { SizeBytes words.now }
    ensures { result ≡ sizes_from words.now }
{
    let mut widths = [0u8; INPUTS];
    for i in 0..INPUTS {
        widths[i] = words[AT_WIDTHS + i] as u8;
    }
    Sizes {
        m: words[0] as u8,
        d: words[1] as u8,
        widths,
    }
}

// Whether the words are sizes: their number is right, and each fits a byte.
#[tactic(auto, unfolding(layouts::specs::SizeWords::sizes_fit))]
pub fn sizes_fit(words: &[u64]) -> bool
    ensures { result ≡ sizes_fit words.now }
{
    words.len() == SIZES_LENGTH && size_bytes(words)
}

// The sizes that the words give; none where these are no sizes.
pub fn sizes_given(words: &[u64]) -> Option<Sizes>
    ensures { result ≡ (if sizes_fit words.now then Some (sizes_from words.now) else None) }
{
    if sizes_fit(words) {
        Some(sizes_from(words))
    } else {
        None
    }
}

// The sizes go into the first words.
pub fn put_sizes(out: &mut [u64], z: Sizes)
    requires { sizes_length ≤ length out.old }
    ensures { out.new ≡ overwritten sizes_length (size_words z) out.old }
{
    out[0] = z.m as u64;
    out[1] = z.d as u64;
    for i in 0..INPUTS {
        out[AT_WIDTHS + i] = z.widths[i] as u64;
    }
}
