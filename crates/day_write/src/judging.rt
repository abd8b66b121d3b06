// Whether the rows of numbers are entries that a file can hold.
ghost use Rattle.std.specs.Prelude.{◌≡◌, ◌&&◌, [], ◌+◌, ◌*◌, ◌/◌, ◌≤◌, ◌<◌, length, get_or};
ghost use Rattle.bits.specs.Tab.{tab};
ghost use Rattle.day.specs.Script.{good_each};
ghost use Rattle.day.specs.Day.{kind1, good_day, setting, refused_frame, within as is_within};
ghost use Rattle.day.specs.Stages.{pair_at};
ghost use Rattle.day_write.specs.Judging.{few_rows, row_good, rows_good};
ghost use Rattle.day_write.specs.Write.{entries_of, whole_rows, lengths_before, refused_row};

use crate::Rows;
use day::{is_given, within};

// Whether so many numbers are whole rows, no more than a section has.
#[tactic(auto, unfolding(crate::specs::Judging::few_rows))]
fn few_rows(numbers: usize, row: usize) -> bool
    requires { 0 < row }
    ensures { result ≡ few_rows numbers row }
{
    numbers % row == 0 && numbers / row <= 255
}

// The lengths of all frames together: few enough that the sum fits. By the rows' numbers, as `lengths_before` adds them: the bound
// of a `sum` over chunks would have to be asked of the caller.
fn lengths(frames: &[u16]) -> usize
    requires { length frames.now / 5 ≤ 255 }
    ensures { result ≡ lengths_before frames.now (length frames.now / 5) }
{
    let mut sum = 0usize;
    for i in 0..frames.len() / 5 {
        sum = sum + usize::from(frames[5 * i + 4]);
    }
    sum
}

#[tactic(auto, unfolding(day::specs::Day::setting, day::specs::Stages::pair_at))]
fn setting_good(settings: &[u8], i: usize) -> bool
    requires { 2 * i + 2 ≤ length settings.now }
    ensures { result ≡ setting.good (tab i (pair_at 0 settings.now)) (pair_at 0 settings.now i) }
{
    let sf = settings[2 * i];
    let low = settings[2 * i + 1];
    within(usize::from(sf), 7, 13)
        && within(usize::from(low), 0, 2)
        && !is_given(settings, 0, i, sf, low)
}

fn settings_good(settings: &[u8]) -> bool
    ensures { result ≡ good_each setting.good [] (tab (length settings.now / 2) (pair_at 0 settings.now)) }
{
    (0..settings.len() / 2).all(|i| setting_good(settings, i))
}

// Whether the number at a place of the rows is low or more, and below end.
fn in_range(rows: &[u16], at: usize, low: usize, end: usize) -> bool
    requires { at < length rows.now }
    ensures { result ≡ is_within low end (get_or rows.now at 0) }
{
    within(usize::from(rows[at]), low, end)
}

// A frame's row, its payload left out.
#[tactic(auto, unfolding(crate::specs::Judging::row_good))]
fn frame_good(frames: &[u16], settings: usize, i: usize) -> bool
    requires { 5 * i + 5 ≤ length frames.now }
    ensures { result ≡ row_good settings frames.now i }
{
    let at = 5 * i;
    in_range(frames, at, 0, settings)
        && in_range(frames, at + 1, 1, 5)
        && in_range(frames, at + 2, 0, 2)
        && in_range(frames, at + 4, 0, 256)
}

fn frames_good(frames: &[u16], settings: usize) -> bool
    ensures { result ≡ rows_good settings frames.now (length frames.now / 5) }
{
    (0..frames.len() / 5).all(|i| frame_good(frames, settings, i))
}

#[tactic(auto, unfolding(day::specs::Day::refused_frame, crate::specs::Write::refused_row))]
fn refused_frame_good(refused: &[u16], settings: usize, i: usize) -> bool
    requires { 3 * i + 3 ≤ length refused.now }
    ensures { result ≡ (refused_frame settings).good [] (refused_row refused.now i) }
{
    let at = 3 * i;
    in_range(refused, at, 0, settings) && day::is_number(usize::from(refused[at + 1]))
}

fn refused_good(refused: &[u16], settings: usize) -> bool
    ensures { result ≡ good_each (refused_frame settings).good [] (tab (length refused.now / 3) (refused_row refused.now)) }
{
    (0..refused.len() / 3).all(|i| refused_frame_good(refused, settings, i))
}

// The rows are counted before the lengths are added.
pub fn good<'a>(rows: Rows<'a>) -> bool
    ensures { result ≡ whole_rows rows.entry.settings.now rows.entry.frames.now rows.entry.payloads.now rows.entry.refused.now && good_day kind1 (entries_of rows.entry.settings.now rows.entry.frames.now rows.entry.payloads.now rows.entry.refused.now) }
{
    let Rows {
        settings,
        frames,
        payloads,
        refused,
    } = rows;
    if !few_rows(settings.len(), 2) {
        return false;
    }
    if !few_rows(frames.len(), 5) {
        return false;
    }
    if !few_rows(refused.len(), 3) {
        return false;
    }
    let sum = lengths(frames);
    if sum != payloads.len() {
        return false;
    }
    let pairs = settings.len() / 2;
    if !settings_good(settings) {
        return false;
    }
    if !frames_good(frames, pairs) {
        return false;
    }
    refused_good(refused, pairs)
}
