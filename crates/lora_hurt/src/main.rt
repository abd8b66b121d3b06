// Which chirps of captured frames were hurt, many frames in one run: standard input is cut at each byte 10, and each piece is a
// capture, as lora_lines takes it, answered by one line, in order. An empty last piece is none.
#![tactic(auto)]

use lines::Progress;

const HELP: &str = "\
lora_hurt < captures > hurts

Says which chirps of LoRa frames were hurt. Takes frames as lora_lines does, one a line: SF, low rate (0 or 1), then the
symbols, in decimal, with spaces between. A frame without a header has =, the agreed length, CR and checksum (0 or 1) in
front. Each line is answered by one line, in order:
  ok INDEX:COUNT INDEX:COUNT ..    each symbol that held repaired bits, from 0 on, and how many; a clean frame is ok alone
  no NUMBER PLACE                  docs/REFUSALS.md says what each number means
The last line on standard error is 'end TEXTS CLEAN REPAIRED REFUSED' if all was read and written, 'full' in place of 'end'
if over 4294967295 frames were heard and so not all were counted, and else says what broke the run off.
";

fn main(rt: HostRuntime) {
    system::serve(
        &rt,
        "lora_hurt",
        HELP,
        || filter::run(&rt, Progress::hurts()),
    );
}
