// A session continued to its verdict, as the comparing program does it.
#![tactic(auto)]

ghost use Rattle.std.specs.Prelude.{◌≡◌, length};
ghost use Rattle.conclusion.specs.Conclusion.{Concluded};
ghost use Rattle.file.specs.Check.{max_steps};
ghost use Rattle.sessions.specs.Session.{opened};

use continuing::continue_session;
use sessions::{Answer, Mark, Session};

// The vectors that one continue call may run.
pub const BUDGET: u64 = 1_000_000;

// The answer that gives the verdict, and the vectors run over all calls.
#[derive(Clone, Copy)]
pub struct Conclusion {
    pub answer: Answer,
    pub run: u64,
}

// Continues the session that opening two files gave, call after call, to the verdict. Answers the answer that gives
// it, and the vectors run over all calls.
pub fn conclude(file1: &[u8], file2: &[u8], session: Session, scratch: &mut [u64]) -> Conclusion
    requires file2_value { (opened file1.now file2.now).refusal.number ≡ 0 }
    requires session_value { session ≡ (opened file1.now file2.now).session }
    requires scratch_len { length scratch.old ≡ max_steps }
    ensures { Concluded file1.now file2.now result.answer result.run }
{
    let mut current = session;
    let mut run: u64 = 0;
    loop {
        let next = continue_session(file1, file2, current, BUDGET, scratch);
        current = next.session;
        run += next.answer.run;
        let Mark::Open = current.mark else {
            return Conclusion {
                answer: next.answer,
                run,
            };
        };
    }
}
