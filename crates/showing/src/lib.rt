// The listing of a day's file on standard output: a line for each entry, by the walker, and the last line; or the one line of a
// refusal. Nothing of a file that is refused is shown.
#![tactic(auto)]

ghost use Rattle.std.specs.Prelude.{◌≡◌, ◌+◌, ◌≤◌, length, OnOk};
ghost use Rattle.put.specs.Put.{Put};
ghost use Rattle.day.specs.Day.{kind1, judged};
ghost use Rattle.day.specs.Walk.{shown};
ghost use Rattle.show.specs.Show.{end_line, no_line};
ghost use Rattle.system.specs.Calls.{Handed, Printing};
ghost use Rattle.showing.specs.Along.{is_over, line_at, Filled, Passed, Over, Told};

use day::{Entry, Place};
use refusal::Refusal;
use show::LINE;
use system::{Sent, Unwritten};

// One byte more than the longest file has: a longer input is refused by its first bytes. A file has its first byte, three
// counts, and at most 255 settings, 255 frames of at most 261 bytes and 255 refused frames.
pub const FILE: usize = 1 + 1 + 2 * 255 + 1 + 261 * 255 + 1 + 4 * 255 + 1;

// The most entries of a file, in its three sections, and its end.
const MOST: usize = 255 + 255 + 255 + 1;

// What became of a listing so far: how many whole lines were written, and how the last write went.
#[derive(Clone, Copy)]
pub struct Shown {
    pub lines: usize,
    pub sent: Sent,
}

// Entries whose lines stand at the front of a buffer: the place behind them, and how many bytes their lines have.
#[derive(Clone, Copy)]
struct Part {
    place: Place,
    used: usize,
}

// The same when the lines were written out.
#[derive(Clone, Copy)]
struct Turn {
    place: Place,
    shown: Shown,
}

// Whether no entry stands at a place: a walk is over there.
fn over_at(bytes: &[u8], place: Place) -> bool
    ensures { result ≡ is_over (shown kind1 bytes.now place) }
{
    matches!(day_walk::seen(bytes, place), Ok(Entry::End) | Err(_))
}

// The line of the entry at a place, behind those that wait.
fn put_here(out: &mut [u8], used: usize, bytes: &[u8], place: Place) -> usize
    requires { used + 640 ≤ length out.old }
    ensures { Put used (line_at bytes.now place) out.old out.new result }
{
    let entry = day_walk::seen(bytes, place);
    let payload = day_walk::part(bytes, place);
    show::put_entry(out, used, entry, payload)
}

// Puts the lines of the entries from a place on at the buffer's front, one behind the other, until the walk is over or another
// line might not fit.
fn fill(bytes: &[u8], from: Place, out: &mut [u8]) -> Part
    requires { 640 ≤ length out.old }
    ensures { Filled bytes.now from result.place out.old out.new result.used }
{
    let last = out.len() - LINE;
    let mut place = from;
    let mut used = 0;
    // Each place is what the walker answers, so that no iterator has it.
    while used <= last && !over_at(bytes, place) {
        used = put_here(out, used, bytes, place);
        place = day_walk::place_behind(bytes, place);
    }
    Part { place, used }
}

// Writes out the first n bytes of a buffer, behind so many lines.
fn write(rt: &HostRuntime, lines: usize, out: &[u8], n: usize) -> Shown
    requires { n ≤ length out.now }
    ensures { Handed n result.sent }
{
    let sent = system::write_first(rt, &mut rt.stdout(), out, n);
    let bytes = sent.unwrap_or_else(|stop| stop.bytes);
    Shown {
        lines: panel::together(lines, lines::line_ends(out, bytes)),
        sent,
    }
}

// Writes out the lines of as many entries as the buffer has room for.
fn show_part(rt: &HostRuntime, bytes: &[u8], from: Place, lines: usize, out: &mut [u8]) -> Turn
    requires { 640 ≤ length out.old }
    ensures { Passed bytes.now from result.place out.new result.shown.sent }
{
    let part = fill(bytes, from, out);
    Turn {
        place: part.place,
        shown: write(rt, lines, out, part.used),
    }
}

// Writes out the lines of all entries. Each turn passes one at least.
fn show_entries(rt: &HostRuntime, bytes: &[u8], out: &mut [u8]) -> Shown
    requires { 640 ≤ length out.old }
    ensures { OnOk result.sent (Over bytes.now) }
{
    let mut place = day_walk::start();
    let mut lines = 0;
    for _ in 0..MOST {
        let turn = show_part(rt, bytes, place, lines, out);
        if let Err(_) = turn.shown.sent {
            return turn.shown;
        }
        if over_at(bytes, turn.place) {
            return turn.shown;
        }
        lines = turn.shown.lines;
        place = turn.place;
    }
    Shown {
        lines,
        sent: Err(Unwritten {
            bytes: 0,
            error: system::out_of_tries(),
        }),
    }
}

// The last line, behind so many.
fn show_end(rt: &HostRuntime, lines: usize, frames: usize, refused: usize, out: &mut [u8]) -> Shown
    requires { 640 ≤ length out.old }
    ensures { Printing (end_line frames refused) out.new result.sent }
{
    let n = show::put_end(out, 0, frames, refused);
    write(rt, lines, out, n)
}

// The one line of a file that is refused.
fn show_refusal(rt: &HostRuntime, refusal: Refusal, out: &mut [u8]) -> Shown
    requires { 640 ≤ length out.old }
    ensures { Printing (no_line refusal.number refusal.place) out.new result.sent }
{
    let n = show::put_no(out, 0, usize::from(refusal.number), refusal.place);
    write(rt, 0, out, n)
}

// Shows a file's bytes, by way of a lent buffer.
pub fn show(rt: &HostRuntime, bytes: &[u8], out: &mut [u8]) -> Shown
    requires { 640 ≤ length out.old }
    ensures { Told (judged kind1 bytes.now) bytes.now out.new result.sent }
{
    match day::check(bytes) {
        Ok(taken) => {
            let shown = show_entries(rt, bytes, out);
            if let Err(_) = shown.sent {
                return shown;
            }
            show_end(rt, shown.lines, taken.frames, taken.refused, out)
        }
        Err(refusal) => show_refusal(rt, refusal, out),
    }
}
