// The program that keeps a day: captures on standard input, as lora_lines takes them; the day's file on standard output, or
// under a name.
#![tactic(auto)]

ghost use Rattle.std.specs.Prelude.{length};
ghost use Rattle.day_keep.specs.Written.{Room};

mod storing;

use keep::{Entries, Progress, Rows};
use refusal::Refusal;
use std::io;
use storing::Failure;
use system::Request;

// The bytes of the longest file: 12 settings, 255 frames of 255 bytes, 255 refused frames.
const FILE: usize = 67603;
// Room for a chunk of standard input, and for a file that is read back; a longer one is seen to be longer.
const BUFFER: usize = 67604;
// Room for any name that the system takes, whose paths have at most 4095 bytes.
const NAME: usize = 4096;

// Tells of a text that the file can't hold.
fn tell(rt: &HostRuntime, news: Option<Refusal>, line: usize) {
    if let Some(refusal) = news {
        let mut out = [0u8; 128];
        let n = keep::put_told(line, refusal, &mut out);
        let _ = system::write_first(rt, &mut rt.stderr(), &out, n);
    }
}

// Takes a chunk whole, text by text.
fn take_chunk(rt: &HostRuntime, progress: &mut Progress, chunk: &[u8]) {
    let mut at = 0;
    // Each place is what a step answers, so that no iterator has it.
    while at < chunk.len() {
        let step = progress.take(chunk, at);
        at = step.at;
        tell(rt, step.news, progress.lines);
    }
}

// Takes all of standard input. A proved loop has to end, so its turns end at a number that no run uses up.
fn take_all(rt: &HostRuntime, progress: &mut Progress, buffer: &mut [u8]) -> io::Result<()> {
    for _ in 0..u64::MAX {
        let n = system::read_some(rt, &mut rt.stdin(), buffer)?;
        if n == 0 {
            return Ok(());
        }
        take_chunk(rt, progress, &buffer[..n]);
    }
    Err(system::out_of_tries())
}

// Writes the file of the entries.
fn write(entries: &Entries, file: &mut [u8]) -> Result<usize, Refusal>
    ensures { Room result (length file.new) }
{
    day_write::write(
        entries.settings(),
        entries.frames(),
        entries.payloads(),
        entries.refused(),
        file,
    )
}

// The line for entries that no file holds.
fn say_refused(rt: &HostRuntime, refusal: Refusal) {
    let mut out = [0u8; line::LINE];
    let n = line::write_line(Err(refusal), b"", &mut out);
    let _ = system::write_first(rt, &mut rt.stderr(), &out, n);
}

// The line that ends a run that kept its file.
fn close(rt: &HostRuntime, rows: Rows, told: usize) {
    let mut out = [0u8; 128];
    let n = keep::put_kept(rows, told, &mut out);
    let _ = system::write_first(rt, &mut rt.stderr(), &out, n);
}

// Keeps the file under its name; it goes to standard output where there is none.
fn hand_on(rt: &HostRuntime, name: &[u8], file: &[u8], back: &mut [u8]) -> Result<(), Failure> {
    if name.is_empty() {
        return storing::write(rt, &mut rt.stdout(), file);
    }
    storing::store(rt, name, file, back)
}

// Hands the file on, and says at the end that it was kept, or why it was not.
fn deliver(rt: &HostRuntime, rows: Rows, told: usize, name: &[u8], file: &[u8], back: &mut [u8]) {
    match hand_on(rt, name, file, back) {
        Ok(()) => close(rt, rows, told),
        Err(failure) => system::say_line(rt, format_args!("not kept: {failure}\n")),
    }
}

// The end of the captures: the last text, and the file.
fn finish(rt: &HostRuntime, progress: &mut Progress, name: &[u8], back: &mut [u8]) {
    let news = progress.finish();
    tell(rt, news, progress.lines);
    let mut file = [0u8; FILE];
    match write(&progress.entries, &mut file) {
        Ok(bytes) => {
            let rows = progress.entries.rows();
            deliver(rt, rows, progress.told, name, &file[..bytes], back);
        }
        Err(refusal) => say_refused(rt, refusal),
    }
}

// Keeps the day under a name, or without one on standard output.
fn run(rt: &HostRuntime, name: &[u8]) {
    let mut progress = Progress::new();
    let mut buffer = [0u8; BUFFER];
    match take_all(rt, &mut progress, &mut buffer) {
        Ok(()) => finish(rt, &mut progress, name, &mut buffer),
        Err(error) => system::say_unread(rt, &error, progress.lines, "no file kept"),
    }
}

const HELP: &str = "\
day_keep < captures > file
day_keep NAME < captures

Reads LoRa frames, one a line as lora_lines takes them, with a header or behind = without one, and keeps the day in one file:
settings, accepted frames and refused frames. With a name the file is written beside it, read back and then named; a file
that has the name already is left alone.
What the file can't hold is told on standard error, as 'line 17: no 14 0'; docs/REFUSALS.md says what each number means.
The last line on standard error is 'kept FRAMES REPAIRED REFUSED TOLD' if the file was kept, and else says why it was not.
day_show shows what a file has.
";

fn main(rt: HostRuntime) {
    let mut name = [0u8; NAME];
    match system::argument(&rt, &mut name) {
        Request::Plain => run(&rt, &[]),
        Request::Name(n) => run(&rt, &name[..n]),
        Request::Help => {
            let _ = system::write_all(&rt, &mut rt.stdout(), HELP.as_bytes());
        }
        Request::Other => {
            system::say(
                &rt,
                b"day_keep takes a file's name, --help, or no argument\n",
            );
        }
    }
}
