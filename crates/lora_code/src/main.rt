// Frames made from the shell: standard input is cut at each byte 10, and each piece is a wish for a frame, answered by the
// line that lora_lines reads, in order. An empty last piece is none.
#![tactic(auto)]

use lines::Progress;

const HELP: &str = "\
lora_code < wishes > captures

Makes LoRa frames, one a line: SF, low rate (0 or 1), CR (1 to 4), checksum (0 or 1), then the payload in hex, - if empty,
with spaces between. For a frame without a header = and the agreed length stand in front:
  = LENGTH SF LOW CR CHECKSUM PAYLOAD
Each line is answered by one line, in order:
  SF LOW SYMBOL SYMBOL ..                     a line that lora_lines reads; symbol numbers count from 0
  = LENGTH CR CHECKSUM SF LOW SYMBOL ..       the same for a frame without a header
  no NUMBER PLACE                             docs/REFUSALS.md says what each number means
The last line on standard error is 'end TEXTS MADE 0 REFUSED' if all was read and written, and else says what broke the
run off.
";

fn main(rt: HostRuntime) {
    system::serve(
        &rt,
        "lora_code",
        HELP,
        || filter::run(&rt, Progress::wishes()),
    );
}
