// Refusals as words, written.
#![tactic(auto)]

ghost use Rattle.std.specs.Prelude.{◌≡◌, ◌≤◌, length};
ghost use Rattle.layouts.specs.AnswerWords.{refusal_words};
ghost use Rattle.layouts.specs.Lengths.{refusal_length};
ghost use Rattle.sizes.specs.Answered.{refusal_in};
ghost use Rattle.slices.specs.Slices.{overwritten};

use sizes::{Refusal, refused_by};
use slices::copy_front;

// The words of a refusal: number, file and step.
pub const REFUSAL_LENGTH: usize = 3;

// What a call was judged goes into the first words, as C has it: number (0: accepted), file, step.
pub fn put_refusal(out: &mut [u64], judged: Result<(), Refusal>)
    requires { refusal_length ≤ length out.old }
    ensures { out.new ≡ overwritten refusal_length (refusal_words (refusal_in judged)) out.old }
{
    let r = judged.err().unwrap_or(refused_by(0));
    copy_front(&[r.number, r.file, r.step], out, REFUSAL_LENGTH);
}
