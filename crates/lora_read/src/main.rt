// The reading program: one frame's text on standard input, over any number of lines, one answer line on standard output.
#![tactic(auto)]

ghost use Rattle.std.specs.Prelude.{◌≡◌, ◌≤◌, length};
ghost use Rattle.system.specs.Calls.{Within, Printing};
ghost use Rattle.text.specs.Scan.{start, refuse, line_at};
ghost use Rattle.lora_read.specs.Turns.{Follows, Finished};

use std::io;
use system::Sent;
use text::Scan;

// What a read gave, taken into the text; whether the text goes on, since it has ended where there was none.
fn take_got(got: io::Result<usize>, scan: &mut Scan, buffer: &[u8]) -> io::Result<bool>
    requires { Within got buffer.now }
    ensures { Follows result got scan.old buffer.now scan.new }
{
    match got? {
        0 => Ok(false),
        n => {
            scan.feed(&buffer[..n]);
            Ok(true)
        }
    }
}

// Takes the whole text. A proved loop has to end, so its turns end at a number that no run uses up.
fn take_all(rt: &HostRuntime, buffer: &mut [u8]) -> io::Result<Scan>
    ensures { Finished result }
{
    let mut scan = Scan::new();
    for _ in 0..u64::MAX {
        let got = system::read_some(rt, &mut rt.stdin(), buffer);
        if !take_got(got, &mut scan, buffer)? {
            return Ok(scan);
        }
    }
    Err(system::out_of_tries())
}

// Writes the answer to the text that was taken.
fn print(rt: &HostRuntime, scan: &mut Scan, line: &mut [u8]) -> Sent
    requires { 640 ≤ length line.old }
    ensures { Printing (line_at scan.old) line.new result }
{
    let answer = scan.answer(line);
    system::write_first(rt, &mut rt.stdout(), line, answer.length)
}

// Prints the answer, and says so where it could not be written.
fn answer(rt: &HostRuntime, scan: &mut Scan) {
    let mut line = [0u8; line::LINE];
    if let Err(stop) = print(rt, scan, &mut line) {
        system::say_unwritten(rt, &stop.error, "0 whole answers written");
    }
}

// A text that can't be taken, as one is whose reading failed.
fn failed() -> Scan
    ensures { result ≡ refuse start }
{
    let mut scan = Scan::new();
    scan.refuse();
    scan
}

fn run(rt: &HostRuntime) {
    let mut buffer = [0u8; 65536];
    match take_all(rt, &mut buffer) {
        Ok(mut scan) => answer(rt, &mut scan),
        Err(error) => {
            system::say_failure(rt, b"reading", &error);
            answer(rt, &mut failed());
        }
    }
}

const HELP: &str = "\
lora_read < frame

Reads one LoRa frame: SF, low rate (0 or 1), then the symbols, in decimal, with spaces or line ends between. Symbol numbers
count from 0. It prints one line:
  ok LENGTH CR CHECKSUM SYMBOLS REPAIRS PAYLOAD    payload in hex, - if empty
  no NUMBER PLACE                                  docs/REFUSALS.md says what each number means
For a file with a frame on each line there is lora_lines.
";

fn main(rt: HostRuntime) {
    system::serve(&rt, "lora_read", HELP, || run(&rt));
}
