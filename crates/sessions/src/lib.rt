// Sessions: what they hold and what calls on them answer. The meaning of the calls: definitions in specs/, laws in
// proofs/. No functions.
#![tactic(auto)]

use sizes::{INPUTS, Refusal, Sizes};

// How far a comparison has come: still open, or closed by a verdict.
#[derive(Clone, Copy)]
pub enum Mark {
    Open,
    Equal,
    Differ,
}

// A comparison in progress: the sizes of the files, the vectors run so far, and the mark.
#[derive(Clone, Copy)]
pub struct Session {
    pub sizes: Sizes,
    pub position: u64,
    pub mark: Mark,
}

// What a continue call came to.
#[derive(Clone, Copy)]
pub enum Kind {
    Refused,
    Spent,
    Equivalent,
    Differs,
}

// What a continue call answers. Fields that an answer has no use for are zero. It stays a struct of all fields, refusal
// and kind included: it is read from any words that C hands in, and layouts::answers_as_words gives each back.
#[derive(Clone, Copy)]
pub struct Answer {
    pub refusal: Refusal,
    pub kind: Kind,
    pub run: u64,
    pub vector: [u64; INPUTS],
    pub output1: u64,
    pub output2: u64,
}

// An answer, with the session that is handed back.
#[derive(Clone, Copy)]
pub struct Continued {
    pub session: Session,
    pub answer: Answer,
}
