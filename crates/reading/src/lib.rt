// Judging what reading answers: what one read comes to, and whether the program was given names of files that it may
// read. No contract can say what a read brings: these say what becomes of what it answers.
#![tactic(auto)]

ghost use Rattle.std.specs.Prelude.{◌≡◌, ◌+◌, ◌^◌, ◌<◌, length};
ghost use Rattle.reading.specs.Reading.{none_or_two, failed_read, after_read, no_bytes};

// How reading a file ended: a read failed, a read brought nothing, at the end of the file, or the buffer is full.
#[derive(Clone, Copy)]
pub enum ReadEnd {
    Failed,
    AtEnd,
    Full,
}

// What reading a file came to: how many bytes it gave, at the start of the buffer, and how it ended. The statement
// ReadWhole speaks of both.
#[derive(Clone, Copy)]
pub struct Reading {
    pub count: usize,
    pub end: ReadEnd,
}

// What one read comes to: it ends reading, or so many bytes have come by now and reading goes on. It is no Result: that
// a file has ended is no error, and the statement ReadsEnd names both cases.
#[derive(Clone, Copy)]
pub enum AfterRead {
    Ended(Reading),
    More(usize),
}

// Whether a read that answered `got` failed: it is below 0.
fn failed(got: isize) -> bool
    ensures { result ≡ failed_read got }
{
    got < 0
}

// A file that can't be read gives no bytes.
pub fn unread() -> Reading
    ensures { result ≡ no_bytes }
{
    Reading {
        count: 0,
        end: ReadEnd::Failed,
    }
}

// What a read into `rest` comes to, where it answered `got`, below 0 where it failed (the statement ReadsEnd has every
// integer), and `done` bytes came before it: one that failed ends reading with no bytes, whatever came before; one that
// brought nothing ends it at the end of the file, with the bytes that came before; after any other reading goes on.
pub fn after_read(done: usize, got: isize, rest: &[u8]) -> AfterRead
    requires { done + length rest.now < 2 ^ 64 }
    ensures { result ≡ after_read done got (length rest.now) }
{
    if failed(got) {
        return AfterRead::Ended(Reading {
            count: 0,
            end: ReadEnd::Failed,
        });
    }
    if got == 0 {
        return AfterRead::Ended(Reading {
            count: done,
            end: ReadEnd::AtEnd,
        });
    }
    let more = io::count(got, rest);
    AfterRead::More(done + more)
}

// Whether a program that was started with `count` words, its own name among them, was given no file names or two.
#[tactic(auto, unfolding(crate::specs::Reading::none_or_two))]
pub fn none_or_two(count: usize) -> bool
    ensures { result ≡ none_or_two count }
{
    count == 1 || count == 3
}
