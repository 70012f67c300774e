// An accepted continue call: the vectors run, and what they come to.
#![tactic(auto)]

ghost use Rattle.std.specs.Prelude.{◌≡◌, ◌≤◌, ◌<◌, max, length};
ghost use Rattle.plan.specs.Plan.{Planned};
ghost use Rattle.sessions.specs.Session.{plain_answer};
ghost use Rattle.advancing.specs.Advancing.{DifferenceShown, Advanced};

use engine::first_difference;
use evaluate::output_at;
use plan::Plan;
use sessions::{Answer, Continued, Kind, Mark, Session};
use sizes::{INPUTS, refused_by};
use vectors::vector_at;

// An answer with no vector to show, after `run` vectors.
#[tactic(auto, unfolding(sessions::specs::Session::plain_answer))]
fn plain_answer(kind: Kind, run: u64) -> Answer
    ensures { result ≡ plain_answer kind run }
{
    Answer {
        refusal: refused_by(0),
        kind,
        run,
        vector: [0; INPUTS],
        output1: 0,
        output2: 0,
    }
}

// The answer that shows the vector at a place of the grid with both outputs, after `run` vectors. Past the larger N
// no scratch entry is touched.
fn differs_answer(
    file1: &[u8],
    file2: &[u8],
    plan: Plan,
    place: u64,
    run: u64,
    scratch: &mut [u64],
) -> Answer
    requires planned { Planned file1.now file2.now plan }
    requires place_lt_size { (place < plan.size) × (max plan.n1 plan.n2 ≤ length scratch.old) }
    ensures { DifferenceShown file1.now file2.now plan place run scratch.old result
        scratch.new }
{
    let vector = vector_at(plan.axes, plan.lows, plan.d, place);
    let output1 = output_at(file1, plan.n1, &vector, scratch);
    let output2 = output_at(file2, plan.n2, &vector, scratch);
    Answer {
        refusal: refused_by(0),
        kind: Kind::Differs,
        run,
        vector,
        output1,
        output2,
    }
}

// An accepted call: runs up to `budget` vectors from the session's position on. Past the larger N no scratch entry is
// touched.
pub fn advance(
    file1: &[u8],
    file2: &[u8],
    plan: Plan,
    session: Session,
    budget: u64,
    scratch: &mut [u64],
) -> Continued
    requires planned { Planned file1.now file2.now plan }
    requires position_lt_size { (session.position < plan.size) × (max plan.n1 plan.n2 ≤ length scratch.old) }
    ensures { Advanced file1.now file2.now plan session budget scratch.old result
        scratch.new }
{
    let position = session.position;
    let left = plan.size - position;
    let count = budget.min(left);
    let place = first_difference(file1, file2, plan, position, count, scratch);
    if place < position + count {
        return Continued {
            answer: differs_answer(file1, file2, plan, place, place + 1 - position, scratch),
            session: Session {
                position: place + 1,
                mark: Mark::Differ,
                ..session
            },
        };
    }
    if left <= budget {
        return Continued {
            answer: plain_answer(Kind::Equivalent, left),
            session: Session {
                position: plan.size,
                mark: Mark::Equal,
                ..session
            },
        };
    }
    Continued {
        answer: plain_answer(Kind::Spent, budget),
        session: Session {
            position: position + budget,
            mark: Mark::Open,
            ..session
        },
    }
}
