// The call on reports, in words. It returns 1 where its layout is right, and 0, with nothing touched, where it is not.
#![tactic(auto)]

ghost use Rattle.report_calls.specs.ReportCalls.{ReportCall};

use answer_words::{ANSWER_LENGTH, answer_given};
use report::{TEXT_ROOM, report};

// The words of the answer: the length of the text.
const REPORT_LENGTH: usize = 1;

// Writes the text of a continue call's answer, given as words, at the start of the text slice, and its count of bytes
// into out; `run` is the vectors run over all calls. An answer of no kind has no text. Nothing else is touched.
#[tactic(auto, using(crate::proofs::Reports::text_short))]
pub fn report_call(
    file1: &[u8],
    file2: &[u8],
    answer: &[u64],
    run: u64,
    text: &mut [u8],
    out: &mut [u64],
) -> u32
    ensures { ReportCall file1.now file2.now answer.now run
        text.old out.old result text.new out.new }
{
    if answer.len() != ANSWER_LENGTH {
        return 0;
    }
    if text.len() < TEXT_ROOM {
        return 0;
    }
    if out.len() != REPORT_LENGTH {
        return 0;
    }
    out[0] = match answer_given(answer) {
        Some(given) => report(file1, file2, given, run, text) as u64,
        None => 0,
    };
    1
}
