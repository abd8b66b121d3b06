// The day's entries, collected from captures that come in chunks of any size: they are cut at each byte 10 as lora_lines cuts
// them, each text is read, and what came out is entered in lent lists, in the form in which the writer takes a day's entries.
#![tactic(auto)]

mod entering;
mod hearing;
mod taking;
mod telling;

pub use entering::Entries;
use refusal::Refusal;
pub use telling::{put_kept, put_told};

// A section of the file holds 255 entries. One more than that is entered, so that the writer refuses it; any further one
// would change nothing.
pub const MOST: usize = 256;

// The room of the lists: each entry has at most one settings pair of its own, and a payload is read behind the others before it
// is known whether it is entered.
pub const SETTINGS: usize = 1024;

pub const FRAMES: usize = 1280;

pub const PAYLOADS: usize = 65535;

pub const REFUSED: usize = 768;

// How many entries stand in the lists: settings of two numbers, frames of five, refused frames of three; the bytes of
// the payloads, and how many of the frames have repairs.
#[derive(Clone, Copy)]
pub struct Rows {
    pub settings: usize,
    pub frames: usize,
    pub bytes: usize,
    pub repaired: usize,
    pub refused: usize,
}

// How far a run has come: the open text, whether it has a byte yet, how many texts ended before it, how many of these were
// told, and the entries of the others.
#[derive(Clone, Copy)]
pub struct Progress {
    scan: capture::Scan,
    begun: bool,
    pub lines: usize,
    pub told: usize,
    pub entries: Entries,
}

// The place in a chunk at which a run goes on, and what is to be told before it does: of the text that ended last a refusal that
// the file can't hold, if it is one.
#[derive(Clone, Copy)]
pub struct Step {
    pub at: usize,
    pub news: Option<Refusal>,
}
