// The entry that stands at a place, from whatever section on.
ghost use Rattle.std.specs.Prelude.{◌≡◌, ◌+◌};
ghost use Rattle.day.specs.Script.{walk};
ghost use Rattle.day.specs.Day.{kind1};
ghost use Rattle.day.specs.Stages.{settings_before};
ghost use Rattle.day.specs.Walk.{in_refused, in_frames, in_settings, at_start, entry_of, shown};

use crate::entries::{frame_at, refused_at, setting_at};
use crate::fields::{count_at, field};
use crate::{Entry, Place};
use refusal::Refusal;

// Behind the last refused frame.
fn end_at(bytes: &[u8], at: usize) -> Result<Entry, Refusal>
    ensures { result ≡ entry_of bytes.now (walk (in_refused 0 0) bytes.now at) }
{
    if at != bytes.len() {
        return Err(Refusal {
            number: refusal::FILE_LENGTH,
            place: at,
        });
    }
    Ok(Entry::End)
}

// Among the refused frames, of which so many are left.
fn in_refused(bytes: &[u8], at: usize, settings: usize, left: usize) -> Result<Entry, Refusal>
    ensures { result ≡ entry_of bytes.now (walk (in_refused settings left) bytes.now at) }
{
    if left == 0 {
        return end_at(bytes, at);
    }
    let refused = refused_at(bytes, at, settings)?;
    Ok(Entry::Refused {
        setting: refused.setting,
        number: refused.number,
        place: refused.place,
        next: Place {
            at: refused.end,
            section: crate::REFUSED,
            left: left - 1,
            settings,
        },
    })
}

// Among the frames.
fn in_frames(bytes: &[u8], at: usize, settings: usize, left: usize) -> Result<Entry, Refusal>
    ensures { result ≡ entry_of bytes.now (walk (in_frames kind1 settings left) bytes.now at) }
{
    if left == 0 {
        let count = count_at(bytes, at)?;
        return in_refused(bytes, at + 1, settings, count);
    }
    let frame = frame_at(bytes, at, settings)?;
    Ok(Entry::Frame {
        setting: frame.setting,
        cr: frame.cr,
        flag: frame.flag,
        repairs: frame.repairs,
        start: frame.start,
        next: Place {
            at: frame.end,
            section: crate::FRAMES,
            left: left - 1,
            settings,
        },
    })
}

// Among the settings.
fn in_settings(bytes: &[u8], at: usize, settings: usize, left: usize) -> Result<Entry, Refusal>
    ensures { result ≡ entry_of bytes.now (walk (in_settings kind1 (settings_before bytes.now at) settings left) bytes.now at) }
{
    if left == 0 {
        let count = count_at(bytes, at)?;
        return in_frames(bytes, at + 1, settings, count);
    }
    let setting = setting_at(bytes, at)?;
    Ok(Entry::Setting {
        sf: setting.sf,
        low: setting.low,
        next: Place {
            at: setting.end,
            section: crate::SETTINGS,
            left: left - 1,
            settings,
        },
    })
}

// Before the first byte.
fn at_start(bytes: &[u8], at: usize) -> Result<Entry, Refusal>
    ensures { result ≡ entry_of bytes.now (walk (at_start kind1 (settings_before bytes.now (at + 2))) bytes.now at) }
{
    field(bytes, at, 1, 2)?;
    let count = count_at(bytes, at + 1)?;
    in_settings(bytes, at + 2, count, count)
}

// The entry at any place of any bytes.
pub fn entry_at(bytes: &[u8], place: Place) -> Result<Entry, Refusal>
    ensures { result ≡ shown kind1 bytes.now place }
{
    match place.section {
        crate::START => at_start(bytes, place.at),
        crate::SETTINGS => in_settings(bytes, place.at, place.settings, place.left),
        crate::FRAMES => in_frames(bytes, place.at, place.settings, place.left),
        _ => in_refused(bytes, place.at, place.settings, place.left),
    }
}
