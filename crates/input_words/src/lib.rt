// The values of inputs as 64-bit words: two's complement for a signed input, plain for an unsigned one.
#![tactic(auto)]

ghost use Rattle.std.specs.Prelude.{◌≡◌};
ghost use Rattle.formats.specs.Formats.{lowest};
ghost use Rattle.words.specs.Words.{word};
ghost use Rattle.input_words.specs.InputWords.{Usable, signed_value, in_format};

use formats::Format;
use words::cut;

// The integer that a word gives in two's complement. This and word_of are the library's casts under the names of their
// definitions.
pub fn signed_value(w: u64) -> i64
    ensures { result ≡ signed_value w }
{
    w.cast_signed()
}

// The word of an integer, in two's complement.
pub fn word_of(x: i64) -> u64
    ensures { result ≡ word x }
{
    x.cast_unsigned()
}

// The lowest value of an input: -2^(n - 1) where it is signed, and 0 where it is not.
pub fn lowest_value(f: Format) -> i64
    requires { Usable f }
    ensures { result ≡ lowest f }
{
    if f.signed {
        i64::MIN >> (64 - f.length)
    } else {
        0
    }
}

// Whether a word gives a value of the input: for a signed one by the order of integers, from the lowest value to the
// highest, and for an unsigned one by its bits, of which none is set past the n lowest.
#[tactic(auto, using(crate::proofs::Casts::in_then, crate::proofs::Casts::in_else))]
pub fn in_format(f: Format, w: u64) -> bool
    requires { Usable f }
    ensures { result ≡ in_format f w }
{
    if f.signed {
        let low = lowest_value(f);
        let high = -1 - low;
        let x = signed_value(w);
        low <= x && x <= high
    } else {
        cut(w, f.length) == w
    }
}
