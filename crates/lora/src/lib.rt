// The five operations offered: code, read, head, count, airtime.
#![tactic(auto)]

mod counting;
mod opening;
mod receiving;
mod sending;
mod shape;
mod timing;

pub use counting::count;
pub use opening::head;
pub use receiving::read;
use refusal::Refusal;
pub use sending::code;
pub use timing::airtime;

// How the two sides know a frame's length, its code rate and whether a checksum follows the payload: from an explicit header that
// is sent in front, or because it was agreed. No Option of the agreed length: the names say which kinds of frames there are, where
// None would say less.
#[derive(Clone, Copy, Debug, PartialEq, Eq)]
pub enum Kind {
    Explicit {
        cr: u8,
        checked: bool,
    },
    Agreed {
        length: usize,
        cr: u8,
        checked: bool,
    },
}

// What a frame is sent with: spreading factor, low-rate flag, and the rest by its kind.
#[derive(Clone, Copy, Debug, PartialEq, Eq)]
pub struct Settings {
    pub sf: u8,
    pub low: bool,
    pub kind: Kind,
}

// What a reader expects: a header, which says the rest, or a frame as it was agreed. No Option, for the same reason.
#[derive(Clone, Copy, Debug, PartialEq, Eq)]
pub enum Expected {
    Explicit,
    Agreed {
        length: usize,
        cr: u8,
        checked: bool,
    },
}

// What read says of a payload that it accepts: its length, the frame's code rate, whether a checksum followed it, the symbols
// that the frame has, the codewords that were repaired, and how far the first symbol was off its mark, -2 to +1.
#[derive(Clone, Copy, Debug, PartialEq, Eq)]
pub struct Accepted {
    pub length: usize,
    pub cr: u8,
    pub checked: bool,
    pub symbols: usize,
    pub repairs: usize,
    pub drift: i8,
}

// The answer of read.
pub type Received = Result<Accepted, Refusal>;
