// The answers of continue calls as words, read and written.
#![tactic(auto)]

ghost use Rattle.std.specs.Prelude.{◌≡◌, length, if◌then◌else◌, Some, None};
ghost use Rattle.layouts.specs.Lengths.{answer_length};
ghost use Rattle.layouts.specs.AnswerWords.{
  kind_word,
  kind_from,
  answer_words,
  answer_fits,
  answer_from,
};

use refusal_words::REFUSAL_LENGTH;
use sessions::{Answer, Kind};
use sizes::{INPUTS, Refusal};
use slices::copy_front;

// Where an answer's kind stands.
const AT_KIND: usize = REFUSAL_LENGTH;

// Where its count of vectors run stands.
const AT_RUN: usize = REFUSAL_LENGTH + 1;

// Where its vector stands.
const AT_VECTOR: usize = REFUSAL_LENGTH + 2;

// Where the output of file 1 stands.
const AT_OUTPUT1: usize = AT_VECTOR + INPUTS;

// Where the output of file 2 stands.
const AT_OUTPUT2: usize = AT_VECTOR + INPUTS + 1;

// The words of an answer: the refusal, kind, vectors run, the vector and two outputs.
pub const ANSWER_LENGTH: usize = AT_VECTOR + INPUTS + 2;

// What a continue call came to, as a word: 0 refused, 1 spent, 2 equivalent, 3 differs. No From: the numbers are this
// layout's, and an impl would stand with the type.
#[tactic(auto, unfolding(layouts::specs::AnswerWords::kind_word))]
fn kind_word(kind: Kind) -> u64
    ensures { result ≡ kind_word kind }
{
    match kind {
        Kind::Refused => 0,
        Kind::Spent => 1,
        Kind::Equivalent => 2,
        Kind::Differs => 3,
    }
}

// The kind that a word of 0 to 3 gives.
#[tactic(auto, unfolding(layouts::specs::AnswerWords::kind_from))]
fn kind_from(word: u64) -> Kind
    ensures { result ≡ kind_from word }
{
    match word {
        0 => Kind::Refused,
        1 => Kind::Spent,
        2 => Kind::Equivalent,
        _ => Kind::Differs,
    }
}

// The answer goes into a slice of as many words as an answer has.
pub fn put_answer(out: &mut [u64], a: Answer)
    requires { length out.old ≡ answer_length }
    ensures { out.new ≡ answer_words a }
{
    let r = a.refusal;
    copy_front(
        &[r.number, r.file, r.step, kind_word(a.kind), a.run],
        out,
        AT_VECTOR,
    );
    copy_front(&a.vector, &mut out[AT_VECTOR..], INPUTS);
    out[AT_OUTPUT1] = a.output1;
    out[AT_OUTPUT2] = a.output2;
}

// Whether the words are an answer: their number is right, and the kind is 0 to 3.
#[tactic(auto, unfolding(layouts::specs::AnswerWords::answer_fits))]
pub fn answer_fits(words: &[u64]) -> bool
    ensures { result ≡ answer_fits words.now }
{
    words.len() == ANSWER_LENGTH && words[AT_KIND] <= 3
}

// The answer that as many words as an answer has give.
pub fn answer_from(words: &[u64]) -> Answer
    requires { length words.now ≡ answer_length }
    ensures { result ≡ answer_from words.now }
{
    let mut vector = [0u64; INPUTS];
    copy_front(&words[AT_VECTOR..], &mut vector, INPUTS);
    Answer {
        refusal: Refusal {
            number: words[0],
            file: words[1],
            step: words[2],
        },
        kind: kind_from(words[AT_KIND]),
        run: words[AT_RUN],
        vector,
        output1: words[AT_OUTPUT1],
        output2: words[AT_OUTPUT2],
    }
}

// The answer that the words give; none where these are no answer.
pub fn answer_given(words: &[u64]) -> Option<Answer>
    ensures { result ≡ (if answer_fits words.now then Some (answer_from words.now) else None) }
{
    if answer_fits(words) {
        Some(answer_from(words))
    } else {
        None
    }
}
