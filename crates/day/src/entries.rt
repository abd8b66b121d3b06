// The entry at a place, field by field.
ghost use Rattle.std.specs.Prelude.{◌≡◌, [], ◌-◌, ◌*◌, ◌/◌, ◌≤◌, length};
ghost use Rattle.bits.specs.Tab.{tab};
ghost use Rattle.day.specs.Script.{walk};
ghost use Rattle.day.specs.Day.{frame, refused_frame, setting, given, is_pair};
ghost use Rattle.day.specs.Stages.{frame_seen, setting_seen, refused_seen, spot, pair_at, settings_before};

use crate::fields::{byte_at, field, number_at};
use refusal::Refusal;

// A setting and the place behind it.
#[derive(Clone, Copy)]
pub struct SettingAt {
    pub sf: u8,
    pub low: u8,
    pub end: usize,
}

// A frame: its fields and where its payload lies.
#[derive(Clone, Copy)]
pub struct FrameAt {
    pub setting: u8,
    pub cr: u8,
    pub flag: u8,
    pub repairs: u16,
    pub start: usize,
    pub end: usize,
}

// A refused frame and the place behind it.
#[derive(Clone, Copy)]
pub struct RefusedAt {
    pub setting: u8,
    pub number: u8,
    pub place: u16,
    pub end: usize,
}

// The frame at a place, its settings index below so many.
pub fn frame_at(bytes: &[u8], at: usize, settings: usize) -> Result<FrameAt, Refusal>
    ensures { result ≡ frame_seen (walk ((frame settings).read []) bytes.now at) }
{
    let setting = field(bytes, at, 0, settings)?;
    let cr = field(bytes, at + 1, 1, 5)?;
    let flag = field(bytes, at + 2, 0, 2)?;
    let low = field(bytes, at + 3, 0, 256)?;
    let high = field(bytes, at + 4, 0, 256)?;
    let length = field(bytes, at + 5, 0, 256)?;
    let start = at + 6;
    if bytes.len() - start < usize::from(length) {
        return Err(Refusal {
            number: refusal::FILE_LENGTH,
            place: bytes.len(),
        });
    }
    Ok(FrameAt {
        setting,
        cr,
        flag,
        repairs: u16::from_le_bytes([low, high]),
        start,
        end: start + usize::from(length),
    })
}

// The place behind it.
pub fn frame_end(bytes: &[u8], at: usize, settings: usize) -> Result<usize, Refusal>
    ensures { result ≡ spot (walk ((frame settings).read []) bytes.now at) }
{
    let frame = frame_at(bytes, at, settings)?;
    Ok(frame.end)
}

// The refused frame at a place.
pub fn refused_at(bytes: &[u8], at: usize, settings: usize) -> Result<RefusedAt, Refusal>
    ensures { result ≡ refused_seen (walk ((refused_frame settings).read []) bytes.now at) }
{
    let setting = field(bytes, at, 0, settings)?;
    let number = number_at(bytes, at + 1)?;
    let low = field(bytes, at + 2, 0, 256)?;
    let high = field(bytes, at + 3, 0, 256)?;
    Ok(RefusedAt {
        setting,
        number,
        place: u16::from_le_bytes([low, high]),
        end: at + 4,
    })
}

// The place behind it.
pub fn refused_end(bytes: &[u8], at: usize, settings: usize) -> Result<usize, Refusal>
    ensures { result ≡ spot (walk ((refused_frame settings).read []) bytes.now at) }
{
    let refused = refused_at(bytes, at, settings)?;
    Ok(refused.end)
}

// Whether pair k, of those that stand from a place on, is this one.
fn same_pair(bytes: &[u8], from: usize, k: usize, sf: u8, low: u8) -> bool
    requires { (from ≤ 2) × (2 * k ≤ length bytes.now) }
    ensures { result ≡ is_pair sf low (pair_at from bytes.now k) }
{
    let at = from + 2 * k;
    sf == byte_at(bytes, at) && low == byte_at(bytes, at + 1)
}

// Whether this pair is among the first j.
pub fn is_given(bytes: &[u8], from: usize, j: usize, sf: u8, low: u8) -> bool
    requires { (from ≤ 2) × (2 * j ≤ length bytes.now) }
    ensures { result ≡ given sf low (tab j (pair_at from bytes.now)) }
{
    (0..j).any(|k| same_pair(bytes, from, k, sf, low))
}

// How many settings a file has before a place.
fn settings_before(at: usize) -> usize
    ensures { result ≡ (at - 2) / 2 }
{
    at.saturating_sub(2) / 2
}

// The setting at a place.
pub fn setting_at(bytes: &[u8], at: usize) -> Result<SettingAt, Refusal>
    ensures { result ≡ setting_seen (walk (setting.read (settings_before bytes.now at)) bytes.now at) }
{
    let sf = field(bytes, at, 7, 13)?;
    let low = field(bytes, at + 1, 0, 2)?;
    let before = settings_before(at);
    if is_given(bytes, 2, before, sf, low) {
        return Err(Refusal {
            number: refusal::FILE_FIELD,
            place: at + 1,
        });
    }
    Ok(SettingAt {
        sf,
        low,
        end: at + 2,
    })
}

// The place behind it.
pub fn setting_end(bytes: &[u8], at: usize) -> Result<usize, Refusal>
    ensures { result ≡ spot (walk (setting.read (settings_before bytes.now at)) bytes.now at) }
{
    let setting = setting_at(bytes, at)?;
    Ok(setting.end)
}
