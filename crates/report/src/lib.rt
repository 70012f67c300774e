// The text of a continue call's answer, as the comparing program prints it.
#![tactic(auto)]

ghost use Rattle.printed.specs.Report.{concluded};
ghost use Rattle.report.specs.Report.{Reported};
ghost use Rattle.text.specs.Writing.{RoomFor, Put};

use fields::read_sizes;
use opening::open_session;
use report_lines::{put_grid, put_refusal, put_run, put_verdict};
use sessions::{Answer, Kind};

// The bytes that a text slice has to have: no text is longer.
pub const TEXT_ROOM: usize = 512;

// Writes the three lines of a verdict at the front of the slice: the grid, the verdict, and the vectors run over all
// calls. Nothing is written where opening the files is refused. Answers the count of bytes.
fn put_comparison(text: &mut [u8], file1: &[u8], file2: &[u8], answer: Answer, run: u64) -> usize
    requires { RoomFor (concluded file1.now file2.now answer run) text.old 0 }
    ensures { Put (concluded file1.now file2.now answer run)
        text.old text.new 0 result }
{
    if open_session(file1, file2).is_err() {
        return 0;
    }
    let sizes = read_sizes(file1);
    let second = put_grid(text, 0, file1);
    let third = put_verdict(text, second, sizes, answer);
    put_run(text, third, run)
}

// Writes the text of a continue call's answer on two files at the front of the slice, and answers its count of bytes;
// the bytes past it are untouched. A refusal is its one line. A verdict is three lines: the grid, the verdict, and
// `run`, the vectors run over all calls; where opening the files is refused it has no text. Nor has a spent call, nor
// any answer where the slice has fewer than TEXT_ROOM bytes.
pub fn report(file1: &[u8], file2: &[u8], answer: Answer, run: u64, text: &mut [u8]) -> usize
    ensures { Reported file1.now file2.now answer run text.old text.new result }
{
    if text.len() < TEXT_ROOM {
        return 0;
    }
    match answer.kind {
        Kind::Refused => put_refusal(text, 0, answer.refusal),
        Kind::Spent => 0,
        Kind::Equivalent | Kind::Differs => put_comparison(text, file1, file2, answer, run),
    }
}
