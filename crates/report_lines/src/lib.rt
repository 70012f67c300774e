// The lines of a report, written into a text slice from an index on. Each function answers the index after its line.
#![tactic(auto)]

ghost use Rattle.std.specs.Prelude.{◌≤◌};
ghost use Rattle.file.specs.Accepted.{Accepted};
ghost use Rattle.sizes.specs.Sizes.{max_inputs};
ghost use Rattle.printed.specs.Report.{grid_text, shown_text};
ghost use Rattle.printed.specs.Lines.{refusal_line, run_line};
ghost use Rattle.text.specs.Writing.{RoomFor, Put};

use fields::read_sizes;
use grid::grid_of;
use sessions::{Answer, Kind};
use sizes::{Refusal, Sizes};
use writing::{put_bytes, put_halves, put_values, put_words};

// The line of a refusal: its number, file and step.
pub fn put_refusal(text: &mut [u8], at: usize, refusal: Refusal) -> usize
    requires { RoomFor (refusal_line refusal) text.old at }
    ensures { Put (refusal_line refusal) text.old text.new at result }
{
    let ns = [refusal.number, refusal.file, refusal.step];
    put_words(text, at, b"refused", &ns, b"\n")
}

// The line of the grid of a file, which is accepted: each axis, and the size.
pub fn put_grid(text: &mut [u8], at: usize, file: &[u8]) -> usize
    requires accepted { Accepted file.now }
    requires room_for { RoomFor (grid_text file.now) text.old at }
    ensures { Put (grid_text file.now) text.old text.new at result }
{
    let z = read_sizes(file);
    let d = z.d as usize;
    let grid = grid_of(z);
    put_halves(text, at, b"grid", &grid.axes[..d], b" =", &[grid.size])
}

// The line of a difference on files of these sizes: the values that the words of the vector give to the d inputs, and
// both outputs.
fn put_difference(text: &mut [u8], at: usize, sizes: Sizes, answer: Answer) -> usize
    requires d_le_max_inputs { sizes.d ≤ max_inputs }
    requires room_for { RoomFor (shown_text Kind.Differs sizes answer) text.old at }
    ensures { Put (shown_text Kind.Differs sizes answer) text.old text.new at result }
{
    let d = sizes.d as usize;
    let outputs = [answer.output1, answer.output2];
    let values = put_bytes(text, at, b"differ");
    let sign = put_values(text, values, &sizes.widths[..d], &answer.vector);
    put_words(text, sign, b" :", &outputs, b"\n")
}

// The line of the verdict that an answer gives on files of these sizes; nothing where it gives none.
pub fn put_verdict(text: &mut [u8], at: usize, sizes: Sizes, answer: Answer) -> usize
    requires d_le_max_inputs { sizes.d ≤ max_inputs }
    requires room_for { RoomFor (shown_text answer.kind sizes answer) text.old at }
    ensures { Put (shown_text answer.kind sizes answer) text.old text.new at result }
{
    match answer.kind {
        Kind::Refused | Kind::Spent => at,
        Kind::Equivalent => put_bytes(text, at, b"equivalent\n"),
        Kind::Differs => put_difference(text, at, sizes, answer),
    }
}

// The line of the vectors run.
pub fn put_run(text: &mut [u8], at: usize, run: u64) -> usize
    requires { RoomFor (run_line run) text.old at }
    ensures { Put (run_line run) text.old text.new at result }
{
    put_words(text, at, b"run", &[run], b"\n")
}
