// The refusals, handed back instead of a result: their numbers, which include/lora.h has under the same names, and their places.
#![tactic(auto)]

// Why a call is refused, by one of the numbers below, and where. The number is a byte and no enum: a tally hears whatever byte C
// hands it, and answers 16 to one that read doesn't give (`tally::hear`, `lora_tally_hear`).
#[derive(Clone, Copy, Debug, PartialEq, Eq)]
pub struct Refusal {
    pub number: u8,
    pub place: usize,
}

pub const BAD_SF: u8 = 1;

pub const BAD_CR: u8 = 2;

pub const TOO_LONG: u8 = 3;

pub const OUT_SHORT: u8 = 4;

pub const FEW_SYMBOLS: u8 = 5;

pub const SYMBOL_OVER: u8 = 6;

pub const UNREADABLE: u8 = 7;

// 8 stays unused: docs/REFUSALS.md says why.
pub const HEADER_CHECK: u8 = 9;

pub const HEADER_BIT: u8 = 10;

pub const HEADER_CR: u8 = 11;

pub const CHECKSUM: u8 = 12;

pub const BAD_BANDWIDTH: u8 = 13;

pub const BAD_TEXT: u8 = 14;

// The numbers of document 02.
pub const FILE_LENGTH: u8 = 15;

pub const FILE_FIELD: u8 = 16;

// The tally's 16: an outcome that read doesn't give.
pub const NO_OUTCOME: u8 = 16;

pub const TALLY_FULL: u8 = 17;
