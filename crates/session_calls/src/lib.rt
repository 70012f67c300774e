// The calls on sessions, in words. Each returns 1 where its layout is right, and 0, with nothing touched, where it is
// not. A session is words: m, d, the width bytes, position and mark. Where it has another length, a size does not fit a
// byte or the mark is not 0 to 2, it is none to continuing. Opening takes any words of that length and overwrites them.
#![tactic(auto)]

ghost use Rattle.session_calls.specs.SessionCalls.{OpenCall, ContinueCall};

use answer_words::{ANSWER_LENGTH, put_answer};
use continuing::continue_session;
use opening::{no_session, open_session};
use refusal_words::{REFUSAL_LENGTH, put_refusal};
use session_words::{SESSION_LENGTH, put_session, session_given};

// Opens a session on two files: session gets the session, and out the refusal.
pub fn open_call(file1: &[u8], file2: &[u8], session: &mut [u64], out: &mut [u64]) -> u32
    ensures { OpenCall file1.now file2.now session.old out.old result
        session.new out.new }
{
    if session.len() != SESSION_LENGTH {
        return 0;
    }
    if out.len() != REFUSAL_LENGTH {
        return 0;
    }
    match open_session(file1, file2) {
        Ok(opened) => {
            put_session(session, opened);
            put_refusal(out, Ok(()));
        }
        Err(refusal) => {
            put_session(session, no_session());
            put_refusal(out, Err(refusal));
        }
    }
    1
}

// Continues a session on two files under a budget: session goes in and out, and answer gets the answer. Of the
// scratch slice the first entries, as many as the larger N, are zero afterwards where the call is accepted; nothing
// else is touched.
pub fn continue_call(
    file1: &[u8],
    file2: &[u8],
    session: &mut [u64],
    budget: u64,
    scratch: &mut [u64],
    answer: &mut [u64],
) -> u32
    ensures { ContinueCall file1.now file2.now budget
        session.old scratch.old answer.old result
        session.new scratch.new answer.new }
{
    if answer.len() != ANSWER_LENGTH {
        return 0;
    }
    let Some(given) = session_given(session) else {
        return 0;
    };
    let next = continue_session(file1, file2, given, budget, scratch);
    put_session(session, next.session);
    put_answer(answer, next.answer);
    1
}
