// The comparing program: compares two datapath files to a verdict and writes the report, in one piece. The files are
// named by two arguments; where there are none, they are a.dp and b.dp in the current folder. With another count of
// arguments it says how it is called, and compares nothing.
#![tactic(auto)]

use comparison::compare;
use fields::{LONG_HEAD, STEPS};
use input::{count_words, read_input, say_failed, say_usage};
use reading::none_or_two;
use report::TEXT_ROOM;

// One byte more than the longest file that is accepted, a long head and 9 bytes for each step: a longer file is seen
// to be longer, and is refused by its length.
const ROOM: usize = LONG_HEAD + 9 * STEPS + 1;

fn main(rt: HostRuntime) {
    let count = count_words(&rt);
    if !none_or_two(count) {
        say_usage(&rt);
        return;
    }
    let mut buf1 = [0u8; ROOM];
    let mut buf2 = [0u8; ROOM];
    let n1 = read_input(&rt, count, 1, b"a.dp", &mut buf1).count;
    let n2 = read_input(&rt, count, 2, b"b.dp", &mut buf2).count;
    let mut text = [0u8; TEXT_ROOM];
    let n = compare(&buf1[..n1], &buf2[..n2], &mut text);
    if let Err(error) = rt.write_all(&text[..n]) {
        say_failed(&rt, "standard output", &error);
    }
}
