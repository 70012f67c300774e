// Continuing a session on two files under a budget.
#![tactic(auto)]

ghost use Rattle.std.specs.Prelude.{◌≡◌};
ghost use Rattle.plan.specs.Plan.{plan_of};
ghost use Rattle.sizes.specs.Answered.{answered};
ghost use Rattle.sessions.specs.Session.{state_refusal, continue_refusal, refused_answer};
ghost use Rattle.continuing.specs.Continuing.{Continues};

use advancing::advance;
use fields::read_sizes;
use opening::{pair_refusal, same_sizes};
use plan::{Plan, plan_of};
use sessions::{Answer, Continued, Kind, Mark, Session};
use sizes::{INPUTS, Refusal, Sizes, refused_by, within};

// Whether a session goes on where the files are accepted and there is room; else what it is refused by: 101, 102 or 103,
// in this order. Open needs a position below the grid's size, equal the size itself, differ 1 to the size, and only an open session goes on.
#[tactic(auto, unfolding(sessions::specs::Session::state_refusal, sessions::specs::Session::misplaced, sessions::specs::Session::is_closed))]
fn state_refusal(sizes: Sizes, size: u64, session: Session) -> Result<(), Refusal>
    ensures { result ≡ answered (state_refusal sizes size session) tt }
{
    if !same_sizes(session.sizes, sizes) {
        return Err(refused_by(101));
    }
    let position = session.position;
    match session.mark {
        Mark::Open if position < size => Ok(()),
        Mark::Equal if position == size => Err(refused_by(103)),
        Mark::Differ if within(1, size, position) => Err(refused_by(103)),
        _ => Err(refused_by(102)),
    }
}

// The plan of the files of a continue call with a scratch slice of `room` entries, or what the call is refused by: 11,
// file 1, file 2, 9, 12, 101, 102 or 103, in this order.
fn judged(
    file1: &[u8],
    file2: &[u8],
    session: Session,
    budget: u64,
    room: usize,
) -> Result<Plan, Refusal>
    ensures { result
        ≡ answered (continue_refusal file1.now file2.now session budget room) (plan_of file1.now file2.now) }
{
    if budget == 0 {
        return Err(refused_by(11));
    }
    pair_refusal(file1, file2)?;
    let sizes = read_sizes(file1);
    let plan = plan_of(file1, file2, sizes);
    if room < plan.n1.max(plan.n2) {
        return Err(refused_by(12));
    }
    state_refusal(sizes, plan.size, session)?;
    Ok(plan)
}

// An answer that refuses.
#[tactic(auto, unfolding(sessions::specs::Session::refused_answer))]
fn refused_answer(refusal: Refusal) -> Answer
    ensures { result ≡ refused_answer refusal }
{
    Answer {
        refusal,
        kind: Kind::Refused,
        run: 0,
        vector: [0; INPUTS],
        output1: 0,
        output2: 0,
    }
}

// Continues a session on two files: runs up to `budget` vectors from its position on. Differs: the first vector among
// these at which the outputs differ is shown with both outputs, and the session is closed. Equivalent: the end of the
// grid is reached and none differs, and the session is closed. Spent: none of these differs and more remain. Refused
// under document 01's conditions in the order 11, file 1, file 2, 9, 12, 101, 102, 103, with the session as it
// was given and no scratch entry touched. After an accepted call the first entries of the scratch slice, as many as
// the larger N, are zero, and the others untouched.
pub fn continue_session(
    file1: &[u8],
    file2: &[u8],
    session: Session,
    budget: u64,
    scratch: &mut [u64],
) -> Continued
    ensures { Continues file1.now file2.now session budget scratch.old result
        scratch.new }
{
    match judged(file1, file2, session, budget, scratch.len()) {
        Ok(plan) => {
            let result = advance(file1, file2, plan, session, budget, scratch);
            scratch[..plan.n1.max(plan.n2)].fill(0);
            result
        }
        Err(refusal) => Continued {
            session,
            answer: refused_answer(refusal),
        },
    }
}
