// Writing bytes, decimal numbers and the values of inputs into a text slice, from an index on. Each function answers
// the index after what it wrote. By bytes: the slice is lent by C, no memory is taken, and the promise is about the bytes
// that a definition names (`Put`).
#![tactic(auto)]

ghost use Rattle.std.specs.Prelude.{pos, [], ◌∷◌, ◌++◌, map, ◌≡◌};
ghost use Rattle.std.specs.Int.Signed.{lt_z};
ghost use Rattle.formats.specs.Bytes.{format_of};
ghost use Rattle.input_words.specs.InputWords.{value_of, values_of};
ghost use Rattle.text.specs.Decimal.{decimal};
ghost use Rattle.text.specs.Text.{line, spaced, spaced_integers};
ghost use Rattle.text.specs.Writing.{RoomFor, Put};

use formats::{Format, format_of};
use input_words::signed_value;

// Writes one byte.
fn put_byte(text: &mut [u8], at: usize, byte: u8) -> usize
    requires { RoomFor (byte ∷ []) text.old at }
    ensures { Put (byte ∷ []) text.old text.new at result }
{
    text[at] = byte;
    at + 1
}

// Writes the bytes.
#[tactic(auto, unfolding(text::specs::Writing::over))]
pub fn put_bytes(text: &mut [u8], at: usize, bytes: &[u8]) -> usize
    requires { RoomFor bytes.now text.old at }
    ensures { Put bytes.now text.old text.new at result }
{
    let next = at + bytes.len();
    text[at..next].copy_from_slice(bytes);
    next
}

// Writes the number in decimal: its tenth first, then the last digit.
fn put_decimal(text: &mut [u8], at: usize, n: u64) -> usize
    requires { RoomFor (decimal n) text.old at }
    ensures { Put (decimal n) text.old text.new at result }
{
    let digit = 48 + (n % 10) as u8;
    if n < 10 {
        return put_byte(text, at, digit);
    }
    let last = put_decimal(text, at, n / 10);
    put_byte(text, last, digit)
}

// Writes a space and the number.
fn put_number(text: &mut [u8], at: usize, n: u64) -> usize
    requires { RoomFor (spaced (n ∷ [])) text.old at }
    ensures { Put (spaced (n ∷ [])) text.old text.new at result }
{
    let next = put_byte(text, at, b' ');
    put_decimal(text, next, n)
}

// Whether the value that the word gives to an input of the format is negative.
fn is_negative(format: Format, w: u64) -> bool
    ensures { result ≡ lt_z (value_of format w) (pos 0) }
{
    format.signed && signed_value(w) < 0
}

// Writes a space and the value that the word gives to an input of the format: where it is negative, a minus sign and
// its magnitude.
fn put_value(text: &mut [u8], at: usize, format: Format, w: u64) -> usize
    requires { RoomFor (spaced_integers (value_of format w ∷ [])) text.old at }
    ensures { Put (spaced_integers (value_of format w ∷ [])) text.old text.new at result }
{
    if is_negative(format, w) {
        let next = put_bytes(text, at, b" -");
        return put_decimal(text, next, 18446744073709551615 - w + 1);
    }
    put_number(text, at, w)
}

// Writes the values that the words give to inputs of these width bytes, each after a space: as many as there are of
// both.
pub fn put_values(text: &mut [u8], at: usize, widths: &[u8], ws: &[u64]) -> usize
    requires { RoomFor (spaced_integers (values_of (map format_of widths.now) ws.now)) text.old at }
    ensures { Put (spaced_integers (values_of (map format_of widths.now) ws.now))
        text.old text.new at result }
{
    let mut next = at;
    for i in 0..widths.len().min(ws.len()) {
        next = put_value(text, next, format_of(widths[i]), ws[i]);
    }
    next
}

// Writes the numbers, each after a space.
fn put_numbers(text: &mut [u8], at: usize, ns: &[u64]) -> usize
    requires { RoomFor (spaced ns.now) text.old at }
    ensures { Put (spaced ns.now) text.old text.new at result }
{
    let mut next = at;
    for &n in ns {
        next = put_number(text, next, n);
    }
    next
}

// Writes a word, the numbers, each after a space, and what ends them.
pub fn put_words(text: &mut [u8], at: usize, word: &[u8], ns: &[u64], end: &[u8]) -> usize
    requires { RoomFor (word.now ++ spaced ns.now ++ end.now) text.old at }
    ensures { Put (word.now ++ spaced ns.now ++ end.now)
        text.old text.new at result }
{
    let numbers = put_bytes(text, at, word);
    let last = put_numbers(text, numbers, ns);
    put_bytes(text, last, end)
}

// Writes a line of two halves: a word and the numbers after it, and a sign and the numbers after that.
pub fn put_halves(
    text: &mut [u8],
    at: usize,
    word: &[u8],
    ns: &[u64],
    sign: &[u8],
    ms: &[u64],
) -> usize
    requires { RoomFor (line (word.now ++ spaced ns.now ++ (sign.now ++ spaced ms.now))) text.old at }
    ensures { Put (line (word.now ++ spaced ns.now ++ (sign.now ++ spaced ms.now)))
        text.old text.new at result }
{
    let next = put_words(text, at, word, ns, sign);
    put_words(text, next, b"", ms, b"\n")
}
