// The number format of an input, and the parts of a width byte.
#![tactic(auto)]

ghost use Rattle.std.specs.Prelude.{◌≡◌};
ghost use Rattle.formats.specs.Bytes.{format_of};

// Whether an input is signed, which is two's complement, and its word length n.
#[derive(Clone, Copy)]
pub struct Format {
    pub signed: bool,
    pub length: u64,
}

// The format that a width byte gives: its top bit is the mark of a signed input, and the low seven bits are n. By shift
// and mask, as document 01 asks ('Form by location'), and under the name that the definition has.
pub fn format_of(byte: u8) -> Format
    ensures { result ≡ format_of byte }
{
    let mark = byte >> 7;
    let length = byte & 127;
    Format {
        signed: mark == 1,
        length: length as u64,
    }
}
