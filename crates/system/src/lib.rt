// The system's calls that the programs share: reads and writes, the wait between two tries, files by name, the arguments.
// What a call reads or writes no contract can say; what is counted and handed on, these contracts do, and what a writer holds
// where its type says so.
#![tactic(auto)]

ghost use Rattle.std.specs.Prelude.{◌≡◌, ◌≤◌, length, take};
ghost use Rattle.std.specs.Io.KnownBytes.{WriteAppends};
ghost use Rattle.system.specs.Calls.{number_of, Within, Behind, Appended, Handed, Named};

use std::env::FillError;
use std::fmt::Display;
use std::io::{ErrorKind, Read, Write};
use std::rt::{Clock, Env};
use std::time::Duration;
use std::{io, thread};

pub mod files;
#[cfg(test)]
mod tests;

// The system's numbers for a call that a signal interrupted, one that would have waited, and an argument that it can't take.
const EINTR: i32 = 4;

const EAGAIN: i32 = 11;

const EINVAL: i32 = 22;

// A write that was broken off: how many bytes it got rid of, and what went wrong.
#[derive(Clone, Copy)]
pub struct Unwritten {
    pub bytes: usize,
    pub error: io::Error,
}

// What a write did: it got rid of all bytes, which are so many, or was broken off.
pub type Sent = Result<usize, Unwritten>;

// What a program that also takes a file's name was asked by its arguments: none, a name alone, of which so many bytes stand at
// the front of a lent buffer, --help alone, or something else.
#[derive(Clone, Copy)]
pub enum Request {
    Plain,
    Name(usize),
    Help,
    Other,
}

// The system's number for what went wrong, 0 for what has none. std refuses a name with a zero byte in it by itself, and gives
// no number for it; the system's is that of an invalid argument.
pub fn number(e: &io::Error) -> i32
    ensures { result ≡ number_of e.now }
{
    let otherwise = match e.kind() {
        ErrorKind::InvalidInput => EINVAL,
        _ => 0,
    };
    e.raw_os_error().unwrap_or(otherwise)
}

// Waits for a thousandth of a second where a call is to be tried again, and hands on whether it is.
fn paused(rt: &impl Clock, again: bool) -> bool {
    if again {
        thread::sleep(rt, Duration::from_millis(1));
    }
    again
}

// Whether a call that failed is to be tried again, behind a pause: by the system's number it would have waited, or a signal
// interrupted it.
fn again(rt: &impl Clock, e: &io::Error) -> bool {
    let number = number(e);
    paused(rt, number == EAGAIN || number == EINTR)
}

// The same by the error's kind, which a reader of a caller's own may give without a number; the system's own always gives one. By
// itself, since inlined it moved the programs' loops to where they took a fifth longer.
#[cold]
#[inline(never)]
fn again_by_kind(rt: &impl Clock, e: &io::Error) -> bool {
    paused(
        rt,
        matches!(e.kind(), ErrorKind::WouldBlock | ErrorKind::Interrupted),
    )
}

// A proved loop has to end, so its tries end at a number that no run uses up. This is what it would say then.
pub fn out_of_tries() -> io::Error {
    io::Error::from(ErrorKind::TimedOut)
}

// Reads what is there, and waits until there is something; no byte stands for the input's end, as std has it.
pub fn read_some<R: Read>(rt: &impl Clock, reader: &mut R, buffer: &mut [u8]) -> io::Result<usize>
    ensures { Within result buffer.new }
{
    for _ in 0..u64::MAX {
        match reader.read(buffer) {
            Ok(n) => {
                return Ok(n);
            }
            Err(e) => {
                if !again(rt, &e) && !again_by_kind(rt, &e) {
                    return Err(e);
                }
            }
        }
    }
    Err(out_of_tries())
}

// The same behind the bytes that are there.
fn read_behind<R: Read>(
    rt: &impl Clock,
    reader: &mut R,
    buffer: &mut [u8],
    from: usize,
) -> io::Result<usize>
    requires { from ≤ length buffer.old }
    ensures { Behind result from buffer.new }
{
    read_some(rt, reader, &mut buffer[from..])
}

// Reads until the input ends, or as much as the buffer takes.
pub fn read_rest<R: Read>(rt: &impl Clock, reader: &mut R, buffer: &mut [u8]) -> io::Result<usize>
    ensures { Within result buffer.new }
{
    let mut have = 0;
    for _ in 0..u64::MAX {
        if have == buffer.len() {
            return Ok(have);
        }
        let n = read_behind(rt, reader, buffer, have)?;
        if n == 0 {
            return Ok(have);
        }
        have += n;
    }
    Err(out_of_tries())
}

// One try to write some bytes: how many went out. None did where the call would have waited, and then this waits.
fn write_some<W: Write>(rt: &impl Clock, writer: &mut W, bytes: &[u8]) -> io::Result<usize>
    ensures within { Within result bytes.now }
    ensures bytes { WriteAppends (W.contents writer.old) (W.contents writer.new) result bytes.now }
{
    match writer.write(bytes) {
        Ok(0) => Err(io::Error::from(ErrorKind::WriteZero)),
        Err(e) if again(rt, &e) => Ok(0),
        answer => answer,
    }
}

// Writes all the bytes, waiting where the reader is slow, or stops at the first write that fails.
pub fn write_all<W: Write>(rt: &impl Clock, writer: &mut W, bytes: &[u8]) -> Sent
    ensures handed { Handed (length bytes.now) result }
    ensures bytes { Appended (W.contents writer.old) (W.contents writer.new) bytes.now result }
{
    let mut done = 0;
    for _ in 0..u64::MAX {
        if done == bytes.len() {
            return Ok(done);
        }
        match write_some(rt, writer, &bytes[done..]) {
            Ok(more) => {
                done += more;
            }
            Err(error) => {
                return Err(Unwritten { bytes: done, error });
            }
        }
    }
    if done == bytes.len() {
        return Ok(done);
    }
    Err(Unwritten {
        bytes: done,
        error: out_of_tries(),
    })
}

// Writes the first n bytes of a buffer.
pub fn write_first<W: Write>(rt: &impl Clock, writer: &mut W, buffer: &[u8], n: usize) -> Sent
    requires { n ≤ length buffer.now }
    ensures handed { Handed n result }
    ensures bytes { Appended (W.contents writer.old) (W.contents writer.new) (take n buffer.now) result }
{
    write_all(rt, writer, &buffer[..n])
}

// Words for whoever started the program, all of them; std's eprint! would give up where a write has to wait.
pub fn say(rt: &HostRuntime, words: &[u8]) {
    let _ = write_all(rt, &mut rt.stderr(), words);
}

// What stands in front, and words behind it, as far as a line of 128 bytes has room. They go out in one write, so that a line
// stays whole where programs share a standard error.
fn say_behind<D: Display + Drop>(rt: &HostRuntime, front: &[u8], words: D) {
    let mut line = [0u8; 128];
    let mut rest = &mut line[..];
    let _ = rest.write(front);
    let _ = rest.write_fmt(words);
    let left = rest.len();
    let n = line.len().saturating_sub(left);
    let _ = write_first(rt, &mut rt.stderr(), &line, n);
}

// A line for whoever started the program, of at most 128 bytes: what it has more is left out. It goes out in one write.
pub fn say_line<D: Display + Drop>(rt: &HostRuntime, line: D) {
    say_behind(rt, &[], line);
}

// The line for what failed, where there is no more to tell of it than the system's number.
pub fn say_failure(rt: &HostRuntime, what: &[u8], error: &io::Error) {
    let error = number(error);
    say_behind(rt, what, format_args!(" failed (error {error})\n"));
}

// The line for a write that failed, and for what came of the run before it.
pub fn say_unwritten<D: Display + Drop>(rt: &HostRuntime, error: &io::Error, came: D) {
    let error = number(error);
    say_line(
        rt,
        format_args!("broken off: writing failed (error {error}), {came}\n"),
    );
}

// The line for a read that failed, behind so many whole lines: the line that it cut short has no answer.
pub fn say_unread<D: Display + Drop>(rt: &HostRuntime, error: &io::Error, lines: usize, came: D) {
    let error = number(error);
    let line = lines.saturating_add(1);
    say_line(
        rt,
        format_args!("broken off: reading failed in line {line} (error {error}), {came}\n"),
    );
}

// Whether an argument of this number was given. It is read into no room at all.
fn is_given(rt: &impl Env, number: usize) -> bool {
    match rt.arg(number, &mut []) {
        Ok(_) | Err(FillError::TooLong) => true,
        Err(FillError::NotPresent) => false,
    }
}

// The one argument of a program that takes a name. An empty name is none, and one that is longer than the buffer can't be used.
pub fn argument(rt: &impl Env, word: &mut [u8]) -> Request
    ensures { Named result word.new }
{
    match rt.arg(1, word) {
        Err(FillError::NotPresent) => Request::Plain,
        Err(FillError::TooLong) => Request::Other,
        Ok(n) => {
            if n == 0 || is_given(rt, 2) {
                Request::Other
            } else if &word[..n] == b"--help".as_slice() {
                Request::Help
            } else {
                Request::Name(n)
            }
        }
    }
}

// A program that takes no argument but --help: its work, unless it was asked for something else.
pub fn serve<F: FnOnce()>(rt: &HostRuntime, name: &str, help: &str, work: F)
    requires { F.IsAlwaysCallable work }
{
    let mut word = [0u8; 8];
    match argument(rt, &mut word) {
        Request::Plain => work(),
        Request::Help => {
            let _ = write_all(rt, &mut rt.stdout(), help.as_bytes());
        }
        Request::Name(_) | Request::Other => {
            say_line(rt, format_args!("{name} takes no argument but --help\n"));
        }
    }
}
