// The figures of an output word length: its bound, and the quotients by which the bound can be followed by hand.
#![tactic(auto)]

ghost use Rattle.std.specs.Prelude.{◌≡◌};
ghost use Rattle.bound.specs.Quotients.{halvings};
ghost use Rattle.figures.specs.Figures.{figures_of, given};
ghost use Rattle.sizes.specs.Answered.{answered};

use bound::bound;
use sizes::{Refusal, is_output_length, refused_by};

// How many quotients there are: by 2, 4, 8, 16, 32 and 64.
pub const QUOTIENTS: usize = 6;

// L(m), and its quotients.
#[derive(Clone, Copy)]
pub struct Figures {
    pub bound: u64,
    pub quotients: [u64; QUOTIENTS],
}

// n divided by 2, 4, 8, 16, 32 and 64, each rounded down.
#[tactic(auto, unfolding(bound::specs::Quotients::halvings))]
fn halvings(n: u64) -> [u64; QUOTIENTS]
    ensures { result ≡ halvings n }
{
    [n / 2, n / 4, n / 8, n / 16, n / 32, n / 64]
}

// The least number L(m) whose factorial is divisible by 2^m, and L(m) divided by 2, 4, 8, 16, 32 and 64, each rounded
// down. Refused by 2 where m is not 1 to 64.
#[tactic(auto, unfolding(crate::specs::Figures::figures_of))]
pub fn figures_of(m: u64) -> Result<Figures, Refusal>
    ensures { result ≡ answered (figures_of m).refusal (given (figures_of m)) }
{
    if !is_output_length(m) {
        return Err(refused_by(2));
    }
    let n = bound(m);
    Ok(Figures {
        bound: n,
        quotients: halvings(n),
    })
}
