// Sessions as words, read and written: the sizes, position and mark.
#![tactic(auto)]

ghost use Rattle.std.specs.Prelude.{true, ◌≡◌, length, if◌then◌else◌, Some, None};
ghost use Rattle.layouts.specs.Lengths.{session_length};
ghost use Rattle.layouts.specs.SessionWords.{
  mark_word,
  mark_from,
  session_words,
  session_fits,
  session_from,
};

use sessions::{Mark, Session};
use size_words::{SIZES_LENGTH, put_sizes, size_bytes, sizes_from};

// Where the position stands.
const AT_POSITION: usize = SIZES_LENGTH;

// Where the mark stands.
const AT_MARK: usize = SIZES_LENGTH + 1;

// The words of a session: the sizes, position and mark.
pub const SESSION_LENGTH: usize = SIZES_LENGTH + 2;

// A mark as a word: 0 open, 1 equal, 2 differ. No From: the numbers are this layout's, and an impl would stand with the
// type.
#[tactic(auto, unfolding(layouts::specs::SessionWords::mark_word))]
fn mark_word(mark: Mark) -> u64
    ensures { result ≡ mark_word mark }
{
    match mark {
        Mark::Open => 0,
        Mark::Equal => 1,
        Mark::Differ => 2,
    }
}

// The mark that a word of 0 to 2 gives.
#[tactic(auto, unfolding(layouts::specs::SessionWords::mark_from))]
fn mark_from(word: u64) -> Mark
    ensures { result ≡ mark_from word }
{
    match word {
        0 => Mark::Open,
        1 => Mark::Equal,
        _ => Mark::Differ,
    }
}

// The session goes into a slice of as many words as a session has.
pub fn put_session(out: &mut [u64], session: Session)
    requires { length out.old ≡ session_length }
    ensures { out.new ≡ session_words session }
{
    put_sizes(out, session.sizes);
    out[AT_POSITION] = session.position;
    out[AT_MARK] = mark_word(session.mark);
}

// Whether the words are a session: their number is right, each size fits a byte, and the mark is 0 to 2.
#[tactic(auto, unfolding(layouts::specs::SessionWords::session_fits))]
pub fn session_fits(words: &[u64]) -> bool
    ensures { result ≡ session_fits words.now }
{
    words.len() == SESSION_LENGTH && size_bytes(words) && words[AT_MARK] <= 2
}

// The session that the words give.
pub fn session_from(words: &[u64]) -> Session
    requires { session_fits words.now ≡ true }
    ensures { result ≡ session_from words.now }
{
    Session {
        sizes: sizes_from(words),
        position: words[AT_POSITION],
        mark: mark_from(words[AT_MARK]),
    }
}

// The session that the words give; none where these are no session.
pub fn session_given(words: &[u64]) -> Option<Session>
    ensures { result ≡ (if session_fits words.now then Some (session_from words.now) else None) }
{
    if session_fits(words) {
        Some(session_from(words))
    } else {
        None
    }
}
