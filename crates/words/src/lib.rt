// Arithmetic modulo 2^64, the cut to m bits, and little-endian reading.
#![tactic(auto)]

ghost use Rattle.std.specs.Prelude.{◌≡◌, ◌+◌, ◌*◌, ◌%◌, ◌^◌, ◌<◌, ◌≤◌, length};
ghost use Rattle.words.specs.Bytes.{little};

// a · b modulo 2^64. By halves of 32 bits: the product of the upper halves is a multiple of 2^64. It is not the
// library's, since document 01 asks for a wrapping multiply of the program's own ('Form by location').
pub fn wrapping_mul(a: u64, b: u64) -> u64
    ensures { result ≡ (a * b) % 2 ^ 64 }
{
    let a0 = a % 4294967296;
    let a1 = a / 4294967296;
    let b0 = b % 4294967296;
    let b1 = b / 4294967296;
    let cross = (a1 * b0).wrapping_add(a0 * b1);
    (cross << 32).wrapping_add(a0 * b0)
}

// x modulo 2^m: the lowest m bits, by a mask. All of x where m is 64 or more.
#[tactic(auto, using(crate::proofs::Masks::cut_masked, crate::proofs::Masks::cut_whole))]
pub fn cut(x: u64, m: u64) -> u64
    ensures { result ≡ x % 2 ^ m }
{
    if m < 64 { x & ((1 << m) - 1) } else { x }
}

// The two bytes of s from i on as a number, the first byte weighing least. This and le64 are each one call of the
// library at a type of its own.
#[tactic(auto, unfolding(crate::specs::Bytes::little))]
pub fn le16(s: &[u8], i: usize) -> u64
    requires { i + 2 ≤ length s.now }
    ensures { (result ≡ little 2 s.now i) × (result < 2 ^ 16) }
{
    u64::from(u16::from_le_bytes([s[i], s[i + 1]]))
}

// The eight bytes of s from i on as a number, the first byte weighing least.
pub fn le64(s: &[u8], i: usize) -> u64
    requires { i + 8 ≤ length s.now }
    ensures { result ≡ little 8 s.now i }
{
    u64::from_le_bytes(s[i..i + 8].try_into().unwrap())
}
