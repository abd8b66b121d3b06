// Captured frames, many in one run: standard input is cut at each byte 10, and each piece is a capture, of a frame with a header
// or without one, answered by one line, in order. An empty last piece is none.
#![tactic(auto)]

use lines::Progress;

const HELP: &str = "\
lora_lines < captures > answers

Reads LoRa frames, one a line: SF, low rate (0 or 1), then the symbols, in decimal, with spaces between. Symbol numbers
count from 0. A frame without a header has =, the agreed length, CR and checksum (0 or 1) in front:
  = LENGTH CR CHECKSUM SF LOW SYMBOL SYMBOL ..
Each line is answered by one line, in order:
  ok LENGTH CR CHECKSUM SYMBOLS REPAIRS PAYLOAD    payload in hex, - if empty
  no NUMBER PLACE                                  docs/REFUSALS.md says what each number means
The last line on standard error is 'end TEXTS CLEAN REPAIRED REFUSED' if all was read and written, 'full' in place of 'end'
if over 4294967295 frames were heard and so not all were counted, and else says what broke the run off.
";

fn main(rt: HostRuntime) {
    system::serve(
        &rt,
        "lora_lines",
        HELP,
        || filter::run(&rt, Progress::frames()),
    );
}
