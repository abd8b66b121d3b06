// A day's file on standard input, its listing on standard output.
#![tactic(auto)]

// Shows the file's bytes, and says so where not all could be written.
fn show(rt: &HostRuntime, bytes: &[u8]) {
    let mut out = [0u8; 65536];
    let shown = showing::show(rt, bytes, &mut out);
    if let Err(stop) = shown.sent {
        let lines = shown.lines;
        let came = format_args!("{lines} whole answers written");
        system::say_unwritten(rt, &stop.error, came);
    }
}

fn run(rt: &HostRuntime) {
    let mut file = [0u8; showing::FILE];
    match system::read_rest(rt, &mut rt.stdin(), &mut file) {
        Ok(n) => show(rt, &file[..n]),
        Err(error) => system::say_failure(rt, b"reading", &error),
    }
}

const HELP: &str = "\
day_show < file

Shows a day's file, a line for each entry, in the file's order:
  setting INDEX SF LOW
  frame INDEX CR FLAG REPAIRS LENGTH PAYLOAD    payload in hex, - if empty
  refused INDEX NUMBER PLACE
  end FRAMES REFUSED                            the last line, if all was read and written
INDEX is a setting's number, from 0; LOW and FLAG, of the low rate and the checksum, are 0 or 1. Of a file that is refused
nothing is shown but the one line
  no NUMBER PLACE                               docs/REFUSALS.md says what each number means
";

fn main(rt: HostRuntime) {
    system::serve(&rt, "day_show", HELP, || run(&rt));
}
