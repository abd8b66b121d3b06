// One file for the day: what a file is, checked whole, and the entry that stands at a place of it.
#![tactic(auto)]

ghost use Rattle.std.specs.Prelude.{◌≡◌};
ghost use Rattle.day.specs.Day.{kind1, judged};
ghost use Rattle.day.specs.Stages.{verdict};

mod entries;
mod fields;
mod sections;
mod walking;

pub use entries::is_given;
use fields::field;
pub use fields::{is_number, within};
use refusal::Refusal;
use sections::{frames_part, refused_part, settings_part};
pub use walking::entry_at;

// How many entries each section of a file has.
#[derive(Clone, Copy, Debug, PartialEq, Eq)]
pub struct Taken {
    pub settings: usize,
    pub frames: usize,
    pub refused: usize,
}

// The sections of a file; a walk starts before its first byte. Numbers and no enum: C hands a walker's place back as it likes, and
// `lora_day_step` tells of any byte what stands there (`shown` speaks of each).
pub const START: u8 = 0;

pub const SETTINGS: u8 = 1;

pub const FRAMES: u8 = 2;

pub const REFUSED: u8 = 3;

// Where a walker stands: the place of the next byte, its section (a number above 3 is as 3), how many entries of it are left,
// and how many settings the file has.
#[derive(Clone, Copy, Debug, PartialEq, Eq)]
pub struct Place {
    pub at: usize,
    pub section: u8,
    pub left: usize,
    pub settings: usize,
}

// What stands at a place: an entry and the place behind it, with a frame's payload from start up to that place; or the end of the
// file.
#[derive(Clone, Copy, Debug, PartialEq, Eq)]
pub enum Entry {
    Setting {
        sf: u8,
        low: u8,
        next: Place,
    },
    Frame {
        setting: u8,
        cr: u8,
        flag: u8,
        repairs: u16,
        start: usize,
        next: Place,
    },
    Refused {
        setting: u8,
        number: u8,
        place: u16,
        next: Place,
    },
    End,
}

// Checks a whole file: how many entries it has, or why it is refused and where.
pub fn check(bytes: &[u8]) -> Result<Taken, Refusal>
    ensures { result ≡ verdict (judged kind1 bytes.now) }
{
    field(bytes, 0, 1, 2)?;
    let settings = settings_part(bytes)?;
    let frames = frames_part(bytes, settings.end, settings.entries)?;
    let refused = refused_part(bytes, frames.end, settings.entries)?;
    if refused.end != bytes.len() {
        return Err(Refusal {
            number: refusal::FILE_LENGTH,
            place: refused.end,
        });
    }
    Ok(Taken {
        settings: settings.entries,
        frames: frames.entries,
        refused: refused.entries,
    })
}
