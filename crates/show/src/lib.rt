// What is shown of a day's file: a line for each entry.
#![tactic(auto)]

ghost use Rattle.std.specs.Prelude.{◌≡◌, [], ◌∷◌, ◌++◌, ◌+◌, ◌-◌, ◌≤◌, length};
ghost use Rattle.line.specs.Line.{field};
ghost use Rattle.put.specs.Put.{Put};
ghost use Rattle.show.specs.Show.{setting_line, frame_line, refused_line, end_line, no_line, entry_line};

use day::Entry;
use line::{put_field, put_payload, put_words};
use put::put;
use refusal::Refusal;

// Room for the longest line, and more: a payload of 255 bytes, and five numbers.
pub const LINE: usize = 640;

// Writes two numbers and the line's end.
fn put_two(out: &mut [u8], at: usize, a: usize, b: usize) -> usize
    requires { at + 43 ≤ length out.old }
    ensures { Put at (field a ++ (field b ++ (10 ∷ []))) out.old out.new result }
{
    let after_a = put_field(out, at, a);
    let after_b = put_field(out, after_a, b);
    put(out, after_b, 10)
}

// Writes three numbers and the line's end.
fn put_three(out: &mut [u8], at: usize, a: usize, b: usize, c: usize) -> usize
    requires { at + 64 ≤ length out.old }
    ensures { Put at (field a ++ (field b ++ (field c ++ (10 ∷ [])))) out.old out.new result }
{
    let after_a = put_field(out, at, a);
    put_two(out, after_a, b, c)
}

// setting INDEX SF LOW
pub fn put_setting(out: &mut [u8], at: usize, index: usize, sf: usize, low: usize) -> usize
    requires { at + 640 ≤ length out.old }
    ensures { Put at (setting_line index sf low) out.old out.new result }
{
    let next = put_words(out, at, b"setting");
    put_three(out, next, index, sf, low)
}

// frame INDEX CR FLAG REPAIRS LENGTH HEX
pub fn put_frame(
    out: &mut [u8],
    at: usize,
    index: usize,
    cr: usize,
    flag: usize,
    repairs: usize,
    payload: &[u8],
) -> usize
    requires { (at + 640 ≤ length out.old) × (length payload.now ≤ 255) }
    ensures { Put at (frame_line index cr flag repairs payload.now) out.old out.new result }
{
    let after_word = put_words(out, at, b"frame");
    let after_index = put_field(out, after_word, index);
    let after_cr = put_field(out, after_index, cr);
    let after_flag = put_field(out, after_cr, flag);
    let after_repairs = put_field(out, after_flag, repairs);
    let after_length = put_field(out, after_repairs, payload.len());
    put_payload(out, after_length, payload)
}

// refused INDEX NUMBER PLACE
pub fn put_refused(out: &mut [u8], at: usize, index: usize, number: usize, place: usize) -> usize
    requires { at + 640 ≤ length out.old }
    ensures { Put at (refused_line index number place) out.old out.new result }
{
    let next = put_words(out, at, b"refused");
    put_three(out, next, index, number, place)
}

// end FRAMES REFUSED
pub fn put_end(out: &mut [u8], at: usize, frames: usize, refused: usize) -> usize
    requires { at + 640 ≤ length out.old }
    ensures { Put at (end_line frames refused) out.old out.new result }
{
    let next = put_words(out, at, b"end");
    put_two(out, next, frames, refused)
}

// no NUMBER PLACE
pub fn put_no(out: &mut [u8], at: usize, number: usize, place: usize) -> usize
    requires { at + 640 ≤ length out.old }
    ensures { Put at (no_line number place) out.old out.new result }
{
    let next = put_words(out, at, b"no");
    put_two(out, next, number, place)
}

// How many settings stand before one that has so many behind it.
fn number_of(settings: usize, left: usize) -> usize
    ensures { result ≡ settings - 1 - left }
{
    if left < settings {
        settings - 1 - left
    } else {
        0
    }
}

// The line of an entry; the end and a refusal have none.
#[tactic(auto, unfolding(crate::specs::Show::entry_line))]
pub fn put_entry(out: &mut [u8], at: usize, seen: Result<Entry, Refusal>, payload: &[u8]) -> usize
    requires { (at + 640 ≤ length out.old) × (length payload.now ≤ 255) }
    ensures { Put at (entry_line seen payload.now) out.old out.new result }
{
    match seen {
        Ok(Entry::Setting { sf, low, next }) => put_setting(
            out,
            at,
            number_of(next.settings, next.left),
            usize::from(sf),
            usize::from(low),
        ),
        Ok(
            Entry::Frame {
                setting,
                cr,
                flag,
                repairs,
                ..
            },
        ) => put_frame(
            out,
            at,
            usize::from(setting),
            usize::from(cr),
            usize::from(flag),
            usize::from(repairs),
            payload,
        ),
        Ok(
            Entry::Refused {
                setting,
                number,
                place,
                ..
            },
        ) => put_refused(
            out,
            at,
            usize::from(setting),
            usize::from(number),
            usize::from(place),
        ),
        _ => at,
    }
}
