// What was heard becomes a row behind the others of its kind.
ghost use Rattle.std.specs.Prelude.{◌≡◌, ◌+◌, ◌*◌, ◌≤◌, ◌<◌, length};
ghost use Rattle.put.specs.Put.{Put};
ghost use Rattle.keep.specs.Heard.{Fits, Sound};
ghost use Rattle.keep.specs.Rows.{Few, frame_numbers, refused_numbers, no_rows, Grown};

use crate::hearing::Heard;
use crate::{FRAMES, MOST, PAYLOADS, REFUSED, Rows, SETTINGS, hearing};
use capture::Scan;
use lora::Accepted;
use put::put_words;
use refusal::Refusal;

// The index of a settings pair, and how many pairs there are now.
#[derive(Clone, Copy)]
struct Setting {
    index: usize,
    settings: usize,
}

// The first of so many pairs that is this one; behind them where none is.
fn index_of(settings: &[u8], count: usize, sf: u8, low: u8) -> usize
    requires { 2 * count ≤ length settings.now }
    ensures { result ≤ count }
{
    settings[..2 * count]
        .chunks_exact(2)
        .position(|pair| pair == [sf, low].as_slice())
        .unwrap_or(count)
}

// The index of a pair, which is new at its first use.
fn setting_of(settings: &mut [u8], count: usize, sf: u8, low: u8) -> Setting
    requires { 2 * count + 1 < length settings.old }
    ensures { (result.index < result.settings) × (count ≤ result.settings) × (result.settings ≤ count + 1) }
{
    let index = index_of(settings, count, sf, low);
    if index < count {
        return Setting {
            index,
            settings: count,
        };
    }
    settings[2 * count] = sf;
    settings[2 * count + 1] = low;
    Setting {
        index: count,
        settings: count + 1,
    }
}

fn put_frame(frames: &mut [u16], at: usize, index: usize, accepted: Accepted) -> usize
    requires { (at + 5 ≤ length frames.old) × (index ≤ 65535) × Fits accepted }
    ensures { Put at (frame_numbers index accepted) frames.old frames.new result }
{
    put_words(
        frames,
        at,
        &[
            narrow(index),
            u16::from(accepted.cr),
            u16::from(accepted.checked),
            narrow(accepted.repairs),
            narrow(accepted.length),
        ],
    )
}

fn put_refused(refused: &mut [u16], at: usize, index: usize, refusal: Refusal) -> usize
    requires { (at + 3 ≤ length refused.old) × (index ≤ 65535) × (refusal.place ≤ 65535) }
    ensures { Put at (refused_numbers index refusal) refused.old refused.new result }
{
    put_words(
        refused,
        at,
        &[
            narrow(index),
            u16::from(refusal.number),
            narrow(refusal.place),
        ],
    )
}

fn narrow(n: usize) -> u16
    requires { n ≤ 65535 }
    ensures { result ≡ n }
{
    n as u16
}

// The day's entries so far, in lists of a fixed room: how many there are, the rows of numbers, and the payloads one behind the
// other.
#[derive(Clone, Copy)]
pub struct Entries {
    rows: Rows,
    settings: [u8; SETTINGS],
    frames: [u16; FRAMES],
    payloads: [u8; PAYLOADS],
    refused: [u16; REFUSED],
    pub ghost few: { Few rows },
}

impl Entries {
    // None yet.
    pub fn new() -> Entries
        ensures { result.rows ≡ no_rows }
    {
        Entries {
            rows: Rows {
                settings: 0,
                frames: 0,
                bytes: 0,
                repaired: 0,
                refused: 0,
            },
            settings: [0u8; SETTINGS],
            frames: [0u16; FRAMES],
            payloads: [0u8; PAYLOADS],
            refused: [0u16; REFUSED],
        }
    }

    pub fn rows(&self) -> Rows
        ensures rows { result ≡ self.now.rows }
        ensures few { Few result }
    {
        self.rows
    }

    // The settings, a row of two numbers each.
    pub fn settings(&self) -> &[u8]
        ensures { length result.now ≡ 2 * self.now.rows.settings }
    {
        &self.settings[..2 * self.rows.settings]
    }

    // The frames, a row of five numbers each.
    pub fn frames(&self) -> &[u16]
        ensures { length result.now ≡ 5 * self.now.rows.frames }
    {
        &self.frames[..5 * self.rows.frames]
    }

    // The frames' payloads.
    pub fn payloads(&self) -> &[u8]
        ensures { length result.now ≡ self.now.rows.bytes }
    {
        &self.payloads[..self.rows.bytes]
    }

    // The refused frames, a row of three numbers each.
    pub fn refused(&self) -> &[u16]
        ensures { length result.now ≡ 3 * self.now.rows.refused }
    {
        &self.refused[..3 * self.rows.refused]
    }

    fn enter_frame(&mut self, sf: u8, low: bool, accepted: Accepted)
        requires { Fits accepted }
        ensures { Grown self.old.rows self.new.rows }
    {
        if self.rows.frames >= MOST {
            return;
        }
        let setting = setting_of(&mut self.settings, self.rows.settings, sf, u8::from(low));
        put_frame(
            &mut self.frames,
            5 * self.rows.frames,
            setting.index,
            accepted,
        );
        self.rows.settings = setting.settings;
        self.rows.frames += 1;
        self.rows.bytes += accepted.length;
        self.rows.repaired += usize::from(accepted.repairs > 0);
    }

    fn enter_refused(&mut self, sf: u8, low: bool, refusal: Refusal)
        requires { refusal.place ≤ 65535 }
        ensures { Grown self.old.rows self.new.rows }
    {
        if self.rows.refused >= MOST {
            return;
        }
        let setting = setting_of(&mut self.settings, self.rows.settings, sf, u8::from(low));
        put_refused(
            &mut self.refused,
            3 * self.rows.refused,
            setting.index,
            refusal,
        );
        self.rows.settings = setting.settings;
        self.rows.refused += 1;
    }

    // Enters what was heard; of what is told, the file has nothing.
    fn enter(&mut self, heard: Heard)
        requires { Sound heard }
        ensures { Grown self.old.rows self.new.rows }
    {
        match heard {
            Heard::Frame { sf, low, accepted } => self.enter_frame(sf, low, accepted),
            Heard::Refused { sf, low, refusal } => self.enter_refused(sf, low, refusal),
            Heard::Told(_) => {}
        }
    }

    // Hears the capture that was taken and ends here, its payload behind those that are there, and enters it; answers what is to
    // be told of it.
    pub fn hear(&mut self, scan: &mut Scan) -> Option<Refusal>
        ensures { Grown self.old.rows self.new.rows }
    {
        let heard = hearing::hear_behind(scan, &mut self.payloads, self.rows.bytes);
        self.enter(heard);
        hearing::news_of(heard)
    }
}
