// Which symbols of a frame were hurt, as the line that answers its capture.
#![tactic(auto)]

ghost use Rattle.std.specs.Prelude.{◌≡◌, ◌+◌, ◌*◌, ◌≤◌, length};
ghost use Rattle.bits.specs.Tab.{placed};
ghost use Rattle.capture.specs.Scan.{outcome_at};
ghost use Rattle.line.specs.Outcome.{Answered};
ghost use Rattle.line.specs.declared.Outcome.TheVariants.{Heard};
ghost use Rattle.put.specs.Put.{Put};
ghost use Rattle.hurt.specs.Answer.{Marked, line_at};
ghost use Rattle.hurt.specs.Hurt.{entry, entries_from, ok_line, hurt_line, hurts_in};

use capture::Scan;
use layout::{LONGEST, MOST_SYMBOLS};
use line::{Answer, Outcome};
use lora::Received;
use put::put;

// Writes a symbol's entry at a place and answers the next place. Index and count have at most three digits.
fn put_entry(out: &mut [u8], at: usize, symbol: usize, count: u8) -> usize
    requires { (symbol ≤ 999) × (at + 21 ≤ length out.old) }
    ensures { Put at (entry symbol count) out.old out.new result × (result ≤ at + 8) }
{
    if count == 0 {
        return at;
    }
    let after_symbol = line::put_field(out, at, symbol);
    let after_colon = put(out, after_symbol, b':');
    line::put_decimal(out, after_colon, usize::from(count))
}

// Writes the entries of the symbols that have these counts, from symbol 0 on, and answers the next place.
fn put_hurts(out: &mut [u8], at: usize, hurts: &[u8]) -> usize
    requires { (length hurts.now ≤ 832) × (at + (8 * length hurts.now + 21) ≤ length out.old) }
    ensures { Put at (entries_from 0 hurts.now) out.old out.new result × (result ≤ at + 8 * length hurts.now) }
{
    let mut next = at;
    for (i, &count) in hurts.iter().enumerate() {
        next = put_entry(out, next, i, count);
    }
    next
}

// Writes the line of an accepted frame and answers its length.
fn write_ok(hurts: &[u8], out: &mut [u8]) -> usize
    requires { (length hurts.now ≤ 832) × (7000 ≤ length out.old) }
    ensures { Put 0 (ok_line hurts.now) out.old out.new result × (result ≤ 7000) }
{
    let after_ok = line::put_words(out, 0, b"ok");
    let after_hurts = put_hurts(out, after_ok, hurts);
    put(out, after_hurts, b'\n')
}

// The line for what was read, with these counts.
fn write_hurt(received: Received, hurts: &[u8], out: &mut [u8]) -> usize
    requires { Marked received × (length hurts.now ≡ 832) × (7000 ≤ length out.old) }
    ensures { (result ≡ length (hurt_line received (hurts_in received hurts.now))) × (result ≤ 7000) × (out.new ≡ placed 0 (hurt_line received (hurts_in received hurts.now)) out.old) }
{
    match received {
        Ok(a) => write_ok(&hurts[..a.symbols], out),
        Err(_) => line::write_line(received, &[], out),
    }
}

// The line, and what was heard.
fn answer_with(received: Received, hurts: &[u8], out: &mut [u8]) -> Answer
    requires { Marked received × (length hurts.now ≡ 832) × (7000 ≤ length out.old) }
    ensures { Answered 7000 (hurt_line received (hurts_in received hurts.now)) (Heard received) out.old out.new result }
{
    Answer {
        length: write_hurt(received, hurts, out),
        outcome: Outcome::Heard(received),
    }
}

// The line that answers the capture that was taken and ends here, written to the lent buffer.
pub fn answer(scan: &mut Scan, out: &mut [u8]) -> Answer
    requires { 7000 ≤ length out.old }
    ensures { Answered 7000 (line_at scan.old) (outcome_at scan.old) out.old out.new result }
{
    scan.finish();
    let mut payload = [0u8; LONGEST];
    let mut hurts = [0u8; MOST_SYMBOLS];
    let received = scan.receive(&mut payload, &mut hurts);
    answer_with(received, &hurts, out)
}
