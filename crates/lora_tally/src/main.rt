// What came of captured frames, many in one run: standard input is cut at each byte 10, and each piece is a capture, as lora_lines
// takes it. No piece is answered by a line; at the end the panel says how many were heard, accepted and refused.
#![tactic(auto)]

use lines::Progress;

const HELP: &str = "\
lora_tally < captures > panel

Counts what came of LoRa frames. Takes frames as lora_lines does, one a line: SF, low rate (0 or 1), then the symbols, in
decimal, with spaces between. A frame without a header has =, the agreed length, CR and checksum (0 or 1) in front.
At the end of the input the panel is written, always all of its 16 lines:
  frames heard: COUNT            all that were read: the two lines and the eleven below add up to it
  accepted clean: COUNT          with no repairs
  accepted repaired: COUNT       with some
  refused NUMBER, WORDS: COUNT   eleven lines, one for each number; docs/REFUSALS.md says what each number means
  no capture, 14: COUNT          lines that are no capture, so that nothing was read
  not counted, 17: COUNT         frames for which the tally had no room, behind 4294967295
The last line on standard error is 'end TEXTS CLEAN REPAIRED REFUSED' if all was read and written, 'full' in place of 'end'
if some frame was not counted, and else says what broke the run off; then no whole panel was written.
";

fn main(rt: HostRuntime) {
    system::serve(
        &rt,
        "lora_tally",
        HELP,
        || filter::run(&rt, Progress::tallies()),
    );
}
