// The bound L(m): the least natural number whose factorial is divisible by 2^m.
#![tactic(auto)]

ghost use Rattle.std.specs.Prelude.{◌≡◌, ◌≤◌};
ghost use Rattle.bound.specs.Bound.{bound};

// L(1) to L(64).
const BOUNDS: [u64; 64] = [
    2, 4, 4, 6, 8, 8, 8, 10, 12, 12, 14, 16, 16, 16, 16, 18, 20, 20, 22, 24, 24, 24, 26, 28, 28,
    30, 32, 32, 32, 32, 32, 34, 36, 36, 38, 40, 40, 40, 42, 44, 44, 46, 48, 48, 48, 48, 50, 52, 52,
    54, 56, 56, 56, 58, 60, 60, 62, 64, 64, 64, 64, 64, 64, 66,
];

// L(m) by the table, for m from 1 to 64. No grid and no answer is made of it.
fn listed_bound(m: u64) -> u64
    requires { (1 ≤ m) × (m ≤ 64) }
    ensures { result ≡ bound m }
{
    BOUNDS[m as usize - 1]
}

// L(m) by algorithm 1 of document 002, for m from 1 to 64: m plus the quotients of what remains of it by 2^v - 1, for
// v from the logarithm of 1 + m down, as long as something remains. It divides 32-bit numbers, which are enough.
pub fn bound(m: u64) -> u64
    requires { (1 ≤ m) × (m ≤ 64) }
    ensures { result ≡ bound m }
{
    let mut rem = m as u32;
    let mut n = 0;
    for v in (1..(1 + m).ilog2() + 1).rev() {
        if rem == 0 {
            break;
        }
        let a = (1 << v) - 1;
        n += rem / a;
        rem %= a;
    }
    m + u64::from(n)
}
