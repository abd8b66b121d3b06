// The file, put into a lent buffer byte by byte.
ghost use Rattle.std.specs.Prelude.{◌≡◌, true, false, [], ◌∷◌, ◌+◌, ◌*◌, ◌/◌, ◌<◌, ◌≤◌, length, get_or};
ghost use Rattle.day.specs.Day.{kind1, low_first, put_count, frame, refused_frame, good_day, file_of};
ghost use Rattle.put.specs.Put.{Put};
ghost use Rattle.day_write.specs.Write.{lengths_before, frame_row, refused_row, entries_of, whole_rows};
ghost use Rattle.day_write.specs.Parts.{settings_part, frames_part, refused_part, FramesFit, RefusedFit, FrameFits, RefusedFits};

use crate::Rows;
use put::{put, put_words};

// The length of the file of rows that it can hold.
pub fn file_length<'a>(rows: Rows<'a>) -> usize
    requires { (whole_rows rows.settings.now rows.frames.now rows.payloads.now rows.refused.now ≡ true) × (good_day kind1 (entries_of rows.settings.now rows.frames.now rows.payloads.now rows.refused.now) ≡ true) }
    ensures { result ≡ length (file_of kind1 (entries_of rows.entry.settings.now rows.entry.frames.now rows.entry.payloads.now rows.entry.refused.now)) }
{
    4 + rows.settings.len()
        + 6 * (rows.frames.len() / 5)
        + rows.payloads.len()
        + 4 * (rows.refused.len() / 3)
}

fn put_count(out: &mut [u8], at: usize, n: usize) -> usize
    requires { (n ≤ 255) × (at < length out.old) }
    ensures { Put at (put_count false n) out.old out.new result }
{
    put(out, at, n as u8)
}

// Two bytes, the low one first.
#[tactic(auto, unfolding(day::specs::Day::low_first))]
fn put_two(out: &mut [u8], at: usize, n: u16) -> usize
    requires { at + 2 ≤ length out.old }
    ensures { Put at (low_first n) out.old out.new result }
{
    put_words(out, at, &n.to_le_bytes())
}

// A number that fits in one byte.
fn put_cell(out: &mut [u8], at: usize, cells: &[u16], j: usize) -> usize
    requires { (j < length cells.now) × (get_or cells.now j 0 < 256) × (at < length out.old) }
    ensures { Put at (get_or cells.now j 0 ∷ []) out.old out.new result }
{
    put(out, at, cells[j] as u8)
}

// Three such numbers, side by side.
fn put_three(out: &mut [u8], at: usize, cells: &[u16], j: usize) -> usize
    requires { (j + 2 < length cells.now) × (get_or cells.now j 0 < 256) × (get_or cells.now (j + 1) 0 < 256) × (get_or cells.now (j + 2) 0 < 256) × (at + 3 ≤ length out.old) }
    ensures { Put at (get_or cells.now j 0 ∷ get_or cells.now (j + 1) 0 ∷ get_or cells.now (j + 2) 0 ∷ []) out.old out.new result }
{
    let bytes = [cells[j] as u8, cells[j + 1] as u8, cells[j + 2] as u8];
    put_words(out, at, &bytes)
}

// Bytes, from a place on. A loop, and no `put_words`: its `copy_from_slice` would have the archive for C ask for `memmove` too.
fn put_bytes(out: &mut [u8], at: usize, bytes: &[u8]) -> usize
    requires { at + length bytes.now ≤ length out.old }
    ensures { Put at bytes.now out.old out.new result }
{
    for (i, &b) in bytes.iter().enumerate() {
        out[at + i] = b;
    }
    at + bytes.len()
}

// The settings' rows are their bytes.
fn put_settings(out: &mut [u8], at: usize, settings: &[u8]) -> usize
    requires { (length settings.now / 2 ≤ 255) × (at + length (settings_part settings.now) ≤ length out.old) }
    ensures { Put at (settings_part settings.now) out.old out.new result }
{
    let count = settings.len() / 2;
    let next = put_count(out, at, count);
    put_bytes(out, next, &settings[..2 * count])
}

// The length of frame i's payload.
fn payload_length(frames: &[u16], i: usize) -> usize
    requires { 5 * i + 4 < length frames.now }
    ensures { result ≡ get_or frames.now (5 * i + 4) 0 }
{
    usize::from(frames[5 * i + 4])
}

// Frame i, whose payload starts there.
fn put_frame(
    out: &mut [u8],
    at: usize,
    frames: &[u16],
    i: usize,
    payloads: &[u8],
    start: usize,
) -> usize
    requires { FrameFits frames.now payloads.now i × (start ≡ lengths_before frames.now i) × (at + length ((frame 255).put (frame_row frames.now payloads.now i)) ≤ length out.old) }
    ensures { Put at ((frame 255).put (frame_row frames.now payloads.now i)) out.old out.new result }
{
    let end = start + payload_length(frames, i);
    let row = 5 * i;
    let after_flag = put_three(out, at, frames, row);
    let after_repairs = put_two(out, after_flag, frames[row + 3]);
    let after_length = put_cell(out, after_repairs, frames, row + 4);
    put_bytes(out, after_length, &payloads[start..end])
}

// Row by row with its number, by which `frame_row` says what the row is and where its payload starts: a loop over chunks of five
// would count the rows beside it all the same.
fn put_frames(out: &mut [u8], at: usize, frames: &[u16], payloads: &[u8]) -> usize
    requires { FramesFit frames.now payloads.now × (at + length (frames_part frames.now payloads.now) ≤ length out.old) }
    ensures { Put at (frames_part frames.now payloads.now) out.old out.new result }
{
    let count = frames.len() / 5;
    let mut next = put_count(out, at, count);
    let mut start = 0;
    for i in 0..count {
        next = put_frame(out, next, frames, i, payloads, start);
        start += payload_length(frames, i);
    }
    next
}

fn put_refused_frame(out: &mut [u8], at: usize, refused: &[u16], i: usize) -> usize
    requires { RefusedFits refused.now i × (at + length ((refused_frame 255).put (refused_row refused.now i)) ≤ length out.old) }
    ensures { Put at ((refused_frame 255).put (refused_row refused.now i)) out.old out.new result }
{
    let row = 3 * i;
    let after_setting = put_cell(out, at, refused, row);
    let after_number = put_cell(out, after_setting, refused, row + 1);
    put_two(out, after_number, refused[row + 2])
}

// By the row's number too, as `refused_row` reads it.
fn put_refused(out: &mut [u8], at: usize, refused: &[u16]) -> usize
    requires { RefusedFit refused.now × (at + length (refused_part refused.now) ≤ length out.old) }
    ensures { Put at (refused_part refused.now) out.old out.new result }
{
    let count = refused.len() / 3;
    let mut next = put_count(out, at, count);
    for i in 0..count {
        next = put_refused_frame(out, next, refused, i);
    }
    next
}

// Writes the file into the lent buffer and answers the place behind it.
pub fn put_file<'a>(rows: Rows<'a>, out: &mut [u8]) -> usize
    requires { (whole_rows rows.settings.now rows.frames.now rows.payloads.now rows.refused.now ≡ true) × (good_day kind1 (entries_of rows.settings.now rows.frames.now rows.payloads.now rows.refused.now) ≡ true) × (length (file_of kind1 (entries_of rows.settings.now rows.frames.now rows.payloads.now rows.refused.now)) ≤ length out.old) }
    ensures { Put 0 (file_of kind1 (entries_of rows.entry.settings.now rows.entry.frames.now rows.entry.payloads.now rows.entry.refused.now)) out.old out.new result }
{
    let after_mark = put(out, 0, 1);
    let after_settings = put_settings(out, after_mark, rows.settings);
    let after_frames = put_frames(out, after_settings, rows.frames, rows.payloads);
    put_refused(out, after_frames, rows.refused)
}
