// A walker over the day's file: it holds the file's bytes and its place in them. On any bytes, at any place, it tells what
// stands there; a file is checked whole, by `day::check`, before a walker is opened on it.
#![tactic(auto)]

ghost use Rattle.std.specs.Prelude.{◌≡◌};
ghost use Rattle.day.specs.Day.{kind1};
ghost use Rattle.day.specs.Walk.{shown, payload_of, behind, begin};

use day::{Entry, Place};
use refusal::Refusal;

#[derive(Clone, Copy)]
pub struct Day<'a> {
    pub bytes: &'a [u8],
    pub place: Place,
}

// The place before a file's first byte.
pub fn start() -> Place
    ensures { result ≡ begin }
{
    Place {
        at: 0,
        section: day::START,
        left: 0,
        settings: 0,
    }
}

// The walker at a place.
pub fn open<'a>(bytes: &'a [u8], place: Place) -> Day<'a>
    ensures { (result.bytes ≡ bytes.entry) × (result.place ≡ place) }
{
    Day { bytes, place }
}

// What stands at the walker's place.
pub fn entry<'a>(d: Day<'a>) -> Result<Entry, Refusal>
    ensures { result ≡ shown kind1 d.entry.bytes.now d.entry.place }
{
    day::entry_at(d.bytes, d.place)
}

// The payload of the frame at a place, that part of the file; of anything else the empty start of it.
fn payload_at<'a>(bytes: &'a [u8], place: Place) -> &'a [u8]
    ensures { result.now ≡ payload_of (shown kind1 bytes.now place) bytes.now }
{
    match day::entry_at(bytes, place) {
        Ok(Entry::Frame { start, next, .. }) => {
            let end = next.at;
            &bytes[start..end]
        }
        _ => &bytes[..0],
    }
}

// Its payload, a part of the file.
pub fn payload<'a>(d: Day<'a>) -> &'a [u8]
    ensures { result.now ≡ payload_of (shown kind1 d.entry.bytes.now d.entry.place) d.entry.bytes.now }
{
    payload_at(d.bytes, d.place)
}

// The place behind what stands at a place; the end and a refusal are not passed.
pub fn place_behind(bytes: &[u8], place: Place) -> Place
    ensures { result ≡ behind (shown kind1 bytes.now place) place }
{
    match day::entry_at(bytes, place) {
        Ok(Entry::Setting { next, .. }) => next,
        Ok(Entry::Frame { next, .. }) => next,
        Ok(Entry::Refused { next, .. }) => next,
        _ => place,
    }
}

// The walker behind it.
pub fn onward<'a>(d: Day<'a>) -> Day<'a>
    ensures { (result.bytes ≡ d.entry.bytes) × (result.place ≡ behind (shown kind1 d.entry.bytes.now d.entry.place) d.entry.place) }
{
    let next = place_behind(d.bytes, d.place);
    Day {
        bytes: d.bytes,
        place: next,
    }
}

// What a walker at a place tells, and the payload that it shows there, for callers that hold no walker.
pub fn seen(bytes: &[u8], place: Place) -> Result<Entry, Refusal>
    ensures { result ≡ shown kind1 bytes.now place }
{
    entry(open(bytes, place))
}

pub fn part<'a>(bytes: &'a [u8], place: Place) -> &'a [u8]
    ensures { result.now ≡ payload_of (shown kind1 bytes.now place) bytes.now }
{
    payload(open(bytes, place))
}
