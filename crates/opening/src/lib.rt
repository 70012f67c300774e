// Opening a session on two files.
#![tactic(auto)]

ghost use Rattle.std.specs.Prelude.{◌≡◌};
ghost use Rattle.sizes.specs.Answered.{answered};
ghost use Rattle.sessions.specs.Session.{same_sizes, pair_refusal, no_session, opened};

use fields::read_sizes;
use file::check_as;
use sessions::{Mark, Session};
use sizes::{INPUTS, Refusal, Sizes, refused_by};

// Whether m, d and all width bytes are the same. A test for each and not `==`, since its edits change one of them.
#[tactic(auto, using(crate::proofs::Same::differ_m, crate::proofs::Same::differ_d))]
pub fn same_sizes(z: Sizes, w: Sizes) -> bool
    ensures { result ≡ same_sizes z w }
{
    z.m == w.m && z.d == w.d && (0..INPUTS).all(|i| z.widths[i] == w.widths[i])
}

// Whether opening and continuing take two files; else what they are refused by: file 1, file 2 or 9, in this order.
pub fn pair_refusal(file1: &[u8], file2: &[u8]) -> Result<(), Refusal>
    ensures { result ≡ answered (pair_refusal file1.now file2.now) tt }
{
    check_as(file1, 1)?;
    check_as(file2, 2)?;
    if same_sizes(read_sizes(file1), read_sizes(file2)) {
        Ok(())
    } else {
        Err(refused_by(9))
    }
}

// A session of zeros, marked open: what is handed out where opening is refused.
#[tactic(auto, unfolding(sessions::specs::Session::no_session))]
pub fn no_session() -> Session
    ensures { result ≡ no_session }
{
    Session {
        sizes: Sizes {
            m: 0,
            d: 0,
            widths: [0; INPUTS],
        },
        position: 0,
        mark: Mark::Open,
    }
}

// Opens a session on two files: their sizes, position 0, open. Refused under document 01's conditions 1 to 9, file 1
// before file 2.
pub fn open_session(file1: &[u8], file2: &[u8]) -> Result<Session, Refusal>
    ensures { result ≡ answered (opened file1.now file2.now).refusal (opened file1.now file2.now).session }
{
    pair_refusal(file1, file2)?;
    Ok(Session {
        sizes: read_sizes(file1),
        position: 0,
        mark: Mark::Open,
    })
}
