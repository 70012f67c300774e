// Reading the two files of the program. Each function that reads answers what reading came to.
#![tactic(auto)]

ghost use Rattle.std.specs.Prelude.{true, ◌≡◌, ◌<◌, length};
ghost use Rattle.file.specs.Long.{longest_file};
ghost use Rattle.reading.specs.Reading.{none_or_two, ReadWhole};

use arrayvec::ArrayString;
use reading::{AfterRead, ReadEnd, Reading, after_read, unread};
use std::env::FillError;
use std::fmt::Write;
use std::fs::File;
use std::io;
use std::io::Read;
use std::rt::{Env, Files};

// Room for the system's reason and its number.
const REASON_ROOM: usize = 300;

// Says on standard error that something could not be read or written, with the system's reason, but for the number
// that std sets behind it.
pub fn say_failed(rt: &impl Eprint, name: &str, error: &io::Error) {
    let mut told = ArrayString::<REASON_ROOM>::new();
    let _ = write!(told, "{error}");
    let text = told.as_str();
    let reason = match text.split_once(" (os error ") {
        Some((reason, _)) => reason,
        None => text,
    };
    let _ = eprintln!(rt; "{name}: {reason}");
}

// What a read into `rest` answered: how many bytes it brought, or -1 where it failed, since the statement ReadsEnd is
// about answers that are integers; then the file is named on
// standard error.
fn read_some(rt: &impl Eprint, name: &str, file: &mut impl Read, rest: &mut [u8]) -> isize {
    match file.read(rest) {
        Ok(got) => got as isize,
        Err(error) => {
            say_failed(rt, name, &error);
            -1
        }
    }
}

// Reads into the buffer, read after read: after_read says of each whether it ends reading, and as what; else reading
// goes on until the buffer is full. The bytes that count stand at the start of the buffer: none where a read failed,
// all of them where it is full. A file of which a read fails is named on standard error.
fn read_to_end(rt: &impl Eprint, name: &str, file: &mut impl Read, buf: &mut [u8]) -> Reading
    requires { longest_file < length buf.old }
    ensures { ReadWhole buf.new result.count result.end }
{
    // Not a `for`: how far `done` goes is what the read brought.
    let mut done = 0;
    while done < buf.len() {
        let rest = &mut buf[done..];
        let got = read_some(rt, name, file, rest);
        match after_read(done, got, rest) {
            AfterRead::Ended(reading) => return reading,
            AfterRead::More(sum) => done = sum,
        }
    }
    Reading {
        count: done,
        end: ReadEnd::Full,
    }
}

// Reads the file of that name. One that can't be read, where opening it or some read fails, gives no bytes, and is
// named on standard error. So does a name that is not UTF-8, since std opens no such file. The buffer has room for one
// byte more than the longest file that is accepted.
fn read_file<R: Files + Eprint>(rt: &R, path: &[u8], buf: &mut [u8]) -> Reading
    requires { longest_file < length buf.old }
    ensures { ReadWhole buf.new result.count result.end }
{
    let name = match str::from_utf8(path) {
        Ok(name) => name,
        Err(_) => {
            let name = path.escape_ascii();
            let _ = eprintln!(rt; "{name}: not UTF-8");
            return unread();
        }
    };
    match File::open(rt, name) {
        Ok(mut file) => read_to_end(rt, name, &mut file, buf),
        Err(error) => {
            say_failed(rt, name, &error);
            unread()
        }
    }
}

// Says on standard error that an argument can't be the name of a file.
fn say_no_name(rt: &impl Eprint) {
    let _ = eprintln!(rt; "file name: empty or too long");
}

// The longest path: the system's 4,096 bytes count the zero byte that ends it too.
const LONGEST_NAME: usize = 4_095;

// Reads the file that argument i names. A name that is empty or longer than any path names no file.
fn read_argument<R: Env + Files + Eprint>(rt: &R, i: usize, buf: &mut [u8]) -> Reading
    requires { longest_file < length buf.old }
    ensures { ReadWhole buf.new result.count result.end }
{
    let mut path = [0u8; LONGEST_NAME];
    let n = rt.arg(i, &mut path).unwrap_or(0);
    if n == 0 {
        say_no_name(rt);
        return unread();
    }
    read_file(rt, &path[..n], buf)
}

// How many words the program was started with, its own name among them.
pub fn count_words(rt: &impl Env) -> usize {
    for i in 0..usize::MAX {
        if let Err(FillError::NotPresent) = rt.arg(i, &mut []) {
            return i;
        }
    }
    usize::MAX
}

// Reads the file that argument i names where there are two, or where there is none the one called `name`. With
// another count of arguments nothing is read.
pub fn read_input<R: Env + Files + Eprint>(
    rt: &R,
    count: usize,
    i: usize,
    name: &[u8],
    buf: &mut [u8],
) -> Reading
    requires count_value { none_or_two count ≡ true }
    requires longest_file_in_bounds { longest_file < length buf.old }
    ensures { ReadWhole buf.new result.count result.end }
{
    if count == 3 {
        read_argument(rt, i, buf)
    } else {
        read_file(rt, name, buf)
    }
}

// Says on standard error how the program is called.
pub fn say_usage(rt: &impl Eprint) {
    let _ = eprintln!(rt; "usage: compare [FILE1 FILE2]");
}
