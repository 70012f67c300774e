// Two files compared to their verdict, and the text that is printed of them.
#![tactic(auto)]

ghost use Rattle.std.specs.Prelude.{◌≤◌, length};
ghost use Rattle.printed.specs.Report.{printed, text_room};
ghost use Rattle.text.specs.Writing.{TextWritten};

use conclusion::{BUDGET, conclude};
use continuing::continue_session;
use fields::STEPS;
use opening::{no_session, open_session};
use report::report;

// Compares two files, and writes what is to be printed of them at the front of the slice. Answers the count of bytes.
pub fn compare(file1: &[u8], file2: &[u8], text: &mut [u8]) -> usize
    requires { text_room ≤ length text.old }
    ensures { TextWritten (printed file1.now file2.now) text.old text.new result }
{
    let mut scratch = [0u64; STEPS];
    let Ok(session) = open_session(file1, file2) else {
        let refused = continue_session(file1, file2, no_session(), BUDGET, &mut scratch);
        return report(file1, file2, refused.answer, 0, text);
    };
    let conclusion = conclude(file1, file2, session, &mut scratch);
    report(file1, file2, conclusion.answer, conclusion.run, text)
}
