// What a capture is heard as.
ghost use Rattle.std.specs.Prelude.{◌≡◌, ◌+◌, ◌≤◌, length};
ghost use Rattle.keep.specs.Heard.{Read, Sound};

use capture::{Call, Scan};
use layout::MOST_SYMBOLS;
use lora::{Accepted, Received};
use refusal::Refusal;

// A frame that was accepted, or refused with a number that the file holds, and its settings; or a refusal to be told.
// Three kinds and no Result: two of them are entered.
#[derive(Clone, Copy)]
pub enum Heard {
    Frame {
        sf: u8,
        low: bool,
        accepted: Accepted,
    },
    Refused {
        sf: u8,
        low: bool,
        refusal: Refusal,
    },
    Told(Refusal),
}

// What was read, by what the file can hold of it.
fn sort(sf: u8, low: bool, received: Received) -> Heard
    requires { Read received }
    ensures { Sound result }
{
    match received {
        Ok(accepted) => Heard::Frame { sf, low, accepted },
        Err(refusal) => {
            if day::is_number(usize::from(refusal.number)) {
                Heard::Refused { sf, low, refusal }
            } else {
                Heard::Told(refusal)
            }
        }
    }
}

// Reads a frame; its payload goes to the lent cells. The file has no place for the symbols that were hurt.
fn hear_call(call: Call, payload: &mut [u8]) -> Heard
    requires { length payload.old ≡ 255 }
    ensures { Sound result }
{
    let mut hurts = [0u8; MOST_SYMBOLS];
    let received = lora::read(
        call.sf,
        call.low,
        call.expected,
        call.symbols,
        payload,
        &mut hurts,
    );
    sort(call.sf, call.low, received)
}

// Reads the capture that was taken and ends here.
fn hear(scan: &mut Scan, payload: &mut [u8]) -> Heard
    requires { length payload.old ≡ 255 }
    ensures { Sound result }
{
    scan.finish();
    let Some(call) = scan.call() else {
        return Heard::Told(Refusal {
            number: refusal::BAD_TEXT,
            place: 0,
        });
    };
    hear_call(call, payload)
}

// The same, and its payload goes behind so many bytes of others.
pub fn hear_behind(scan: &mut Scan, payloads: &mut [u8], bytes: usize) -> Heard
    requires { bytes + 255 ≤ length payloads.old }
    ensures { Sound result }
{
    let end = bytes + 255;
    hear(scan, &mut payloads[bytes..end])
}

// What is to be told of it.
pub fn news_of(heard: Heard) -> Option<Refusal> {
    match heard {
        Heard::Told(refusal) => Some(refusal),
        Heard::Frame { .. } | Heard::Refused { .. } => None,
    }
}
