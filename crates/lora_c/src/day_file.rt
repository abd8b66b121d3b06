// The day's file for C and Rust. Numbers returned and cells are as those of the five operations.
ghost use Rattle.std.specs.Prelude.{◌≡◌, ◌≤◌, length};
ghost use Rattle.day.specs.Day.{kind1, file_of, judged};
ghost use Rattle.day.specs.Stages.{verdict};
ghost use Rattle.day.specs.Walk.{shown};
ghost use Rattle.day_write.specs.Write.{entries_of, write_of};
ghost use Rattle.day.specs.declared.Entry.TheVariants.{Setting, Frame, Refused};
ghost use Rattle.lora_c.specs.Export.{front};
ghost use Rattle.lora_c.specs.DayExport.{cells_of_taken, cells_of_entry, WriteExported, CheckExported, StepExported};

use crate::{ANSWER_SHORT, Cells, put, refuse, tell};
use day::{Entry, Place, Taken};
use refusal::Refusal;

// Writes the file of a day's entries into the lent bytes. answer[0] on acceptance: the file's length.
pub fn lora_day_write(
    settings: &[u8],
    frames: &[u16],
    payloads: &[u8],
    refused: &[u16],
    out: &mut [u8],
    answer: &mut [u64],
) -> u8
    ensures { WriteExported (write_of kind1 settings.now frames.now payloads.now refused.now (length out.old)) (file_of kind1 (entries_of settings.now frames.now payloads.now refused.now)) out.old out.new answer.old answer.new result }
{
    if answer.is_empty() {
        return ANSWER_SHORT;
    }
    let written = day_write::write(settings, frames, payloads, refused, out);
    tell(written, answer)
}

impl Cells<3> for Taken {
    ghost cells = { cells_of_taken };

    fn cells(self) -> [u64; 3] {
        [
            self.settings as u64,
            self.frames as u64,
            self.refused as u64,
        ]
    }
}

// Checks a day's file. answer on acceptance: settings, frames, refused frames.
pub fn lora_day_check(file: &[u8], answer: &mut [u64]) -> u8
    ensures { CheckExported (verdict (judged kind1 file.now)) answer.old answer.new result }
{
    if answer.len() < 3 {
        return ANSWER_SHORT;
    }
    tell(day::check(file), answer)
}

// A setting and the place behind it.
fn put_setting(answer: &mut [u64], sf: u8, low: u8, next: Place)
    requires { 11 ≤ length answer.old }
    ensures { answer.new ≡ front (cells_of_entry (Setting sf low next)) answer.old }
{
    put(
        answer,
        &[
            1,
            next.at as u64,
            u64::from(next.section),
            next.left as u64,
            next.settings as u64,
            u64::from(sf),
            u64::from(low),
        ],
    );
}

// A frame; its payload ends where the next entry starts.
fn put_frame(
    answer: &mut [u64],
    setting: u8,
    cr: u8,
    flag: u8,
    repairs: u16,
    start: usize,
    next: Place,
)
    requires { 11 ≤ length answer.old }
    ensures { answer.new ≡ front (cells_of_entry (Frame setting cr flag repairs start next)) answer.old }
{
    put(
        answer,
        &[
            2,
            next.at as u64,
            u64::from(next.section),
            next.left as u64,
            next.settings as u64,
            u64::from(setting),
            u64::from(cr),
            u64::from(flag),
            u64::from(repairs),
            start as u64,
            next.at as u64,
        ],
    );
}

// A refused frame.
fn put_refused(answer: &mut [u64], setting: u8, number: u8, place: u16, next: Place)
    requires { 11 ≤ length answer.old }
    ensures { answer.new ≡ front (cells_of_entry (Refused setting number place next)) answer.old }
{
    put(
        answer,
        &[
            3,
            next.at as u64,
            u64::from(next.section),
            next.left as u64,
            next.settings as u64,
            u64::from(setting),
            u64::from(number),
            u64::from(place),
        ],
    );
}

// What stands at a place, as a number and cells.
fn tell_entry(seen: Result<Entry, Refusal>, answer: &mut [u64]) -> u8
    ensures { StepExported seen answer.old answer.new result }
{
    if answer.len() < 11 {
        return ANSWER_SHORT;
    }
    match seen {
        Ok(Entry::Setting { sf, low, next }) => {
            put_setting(answer, sf, low, next);
            0
        }
        Ok(
            Entry::Frame {
                setting,
                cr,
                flag,
                repairs,
                start,
                next,
            },
        ) => {
            put_frame(answer, setting, cr, flag, repairs, start, next);
            0
        }
        Ok(
            Entry::Refused {
                setting,
                number,
                place,
                next,
            },
        ) => {
            put_refused(answer, setting, number, place, next);
            0
        }
        Ok(Entry::End) => {
            put(answer, &[0]);
            0
        }
        Err(e) => refuse(answer, e),
    }
}

// The entry at a place of a day's file. answer on acceptance: what stands there, the place behind it, and its fields.
pub fn lora_day_step(
    file: &[u8],
    at: usize,
    section: u8,
    left: usize,
    settings: usize,
    answer: &mut [u64],
) -> u8
    ensures { StepExported (shown kind1 file.now (record { at = at; section = section; left = left; settings = settings })) answer.old answer.new result }
{
    let place = Place {
        at,
        section,
        left,
        settings,
    };
    tell_entry(day::entry_at(file, place), answer)
}
