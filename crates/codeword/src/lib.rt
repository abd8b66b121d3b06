// A nibble's codeword at each rate, and what a received word is found to be.
#![tactic(auto)]

ghost use Rattle.std.specs.Prelude.{◌≡◌, ◌+◌, ◌^◌, ◌<◌};
ghost use Rattle.bits.specs.Tab.{tab};
ghost use Rattle.codeword.specs.Ranges.{Rate};
ghost use Rattle.codeword.specs.Readings.{nibble_in, bit_in, clean_in, none_in, reading_of, reading_table, step_table};
ghost use Rattle.codeword.specs.Rows.{row_of_code};

// The received words of all rates: 32 at CR 1, 64 at CR 2, 128 at CR 3 and 256 at CR 4.
pub const WORDS: usize = 480;

// What each of them is read as, CR 1 first, 16 words a line. A reading is a byte of two hex digits, so that it can be told and
// counted without a branch (of an enum the compiler chose between the cases at every codeword, which took longer): the bit that
// is flipped, and the nibble. 8d is the nibble d, taken; jd is repaired to it, by flipping bit j; 90 can't be read, which is so
// of no word at CR 3.
const READINGS: [u8; WORDS] = *b"\
    \x80\x90\x90\x83\x90\x85\x86\x90\x90\x89\x8a\x90\x8c\x90\x90\x8f\
    \x90\x81\x82\x90\x84\x90\x90\x87\x88\x90\x90\x8b\x90\x8d\x8e\x90\
    \x80\x90\x90\x90\x90\x90\x86\x90\x90\x90\x90\x8b\x90\x8d\x90\x90\
    \x90\x81\x90\x90\x90\x90\x90\x87\x90\x90\x8a\x90\x8c\x90\x90\x90\
    \x90\x90\x90\x83\x90\x85\x90\x90\x88\x90\x90\x90\x90\x90\x8e\x90\
    \x90\x90\x82\x90\x84\x90\x90\x90\x90\x89\x90\x90\x90\x90\x90\x8f\
    \x80\x00\x10\x53\x20\x3d\x66\x47\x30\x2d\x4a\x6b\x0d\x8d\x5e\x1d\
    \x40\x61\x3a\x27\x54\x17\x07\x87\x1a\x59\x8a\x0a\x6c\x4d\x2a\x37\
    \x50\x13\x03\x83\x44\x65\x3e\x23\x68\x49\x2e\x33\x1e\x5d\x8e\x0e\
    \x24\x39\x62\x43\x84\x04\x14\x57\x09\x89\x5a\x19\x34\x29\x4e\x6f\
    \x60\x41\x26\x3b\x16\x55\x86\x06\x58\x1b\x0b\x8b\x4c\x6d\x36\x2b\
    \x01\x81\x52\x11\x3c\x21\x46\x67\x2c\x31\x6a\x4b\x8c\x0c\x1c\x5f\
    \x38\x25\x42\x63\x05\x85\x56\x15\x88\x08\x18\x5b\x28\x35\x6e\x4f\
    \x12\x51\x82\x02\x64\x45\x22\x3f\x48\x69\x32\x2f\x5c\x1f\x0f\x8f\
    \x80\x00\x10\x90\x20\x90\x90\x47\x30\x90\x90\x6b\x90\x7d\x5e\x90\
    \x40\x90\x90\x27\x90\x17\x07\x87\x90\x59\x7a\x90\x6c\x90\x90\x37\
    \x50\x90\x90\x73\x90\x65\x3e\x90\x90\x49\x2e\x90\x1e\x90\x8e\x0e\
    \x90\x39\x62\x90\x74\x90\x90\x57\x09\x89\x90\x19\x90\x29\x4e\x90\
    \x60\x90\x90\x3b\x90\x55\x76\x90\x90\x1b\x0b\x8b\x4c\x90\x90\x2b\
    \x90\x71\x52\x90\x3c\x90\x90\x67\x2c\x90\x90\x4b\x8c\x0c\x1c\x90\
    \x90\x25\x42\x90\x05\x85\x90\x15\x78\x90\x90\x5b\x90\x35\x6e\x90\
    \x12\x90\x82\x02\x90\x45\x22\x90\x90\x69\x32\x90\x5c\x90\x90\x7f\
    \x70\x90\x90\x53\x90\x3d\x66\x90\x90\x2d\x4a\x90\x0d\x8d\x90\x1d\
    \x90\x61\x3a\x90\x54\x90\x90\x77\x1a\x90\x8a\x0a\x90\x4d\x2a\x90\
    \x90\x13\x03\x83\x44\x90\x90\x23\x68\x90\x90\x33\x90\x5d\x7e\x90\
    \x24\x90\x90\x43\x84\x04\x14\x90\x90\x79\x5a\x90\x34\x90\x90\x6f\
    \x90\x41\x26\x90\x16\x90\x86\x06\x58\x90\x90\x7b\x90\x6d\x36\x90\
    \x01\x81\x90\x11\x90\x21\x46\x90\x90\x31\x6a\x90\x7c\x90\x90\x5f\
    \x38\x90\x90\x63\x90\x75\x56\x90\x88\x08\x18\x90\x28\x90\x90\x4f\
    \x90\x51\x72\x90\x64\x90\x90\x3f\x48\x90\x90\x2f\x90\x1f\x0f\x8f";

// The bits of a reading: 0 to 7, and 8 for none.
pub const BITS: usize = 9;

// What each adds to a number that counts flips, a byte for each bit of a codeword: one in its byte; none adds nothing. So a row
// is counted by a load and a sum, whatever it was read as.
const STEPS: [u64; BITS] = [
    1,
    256,
    65536,
    16777216,
    4294967296,
    1099511627776,
    281474976710656,
    72057594037927936,
    0,
];

// The codewords as rows of a grid, 16 for each rate: nibble d's at CR is row 16 x (CR - 1) + d.
const ROWS: [[bool; 8]; 64] = [
    [false, false, false, false, false, false, false, false],
    [true, false, false, false, true, false, false, false],
    [false, true, false, false, true, false, false, false],
    [true, true, false, false, false, false, false, false],
    [false, false, true, false, true, false, false, false],
    [true, false, true, false, false, false, false, false],
    [false, true, true, false, false, false, false, false],
    [true, true, true, false, true, false, false, false],
    [false, false, false, true, true, false, false, false],
    [true, false, false, true, false, false, false, false],
    [false, true, false, true, false, false, false, false],
    [true, true, false, true, true, false, false, false],
    [false, false, true, true, false, false, false, false],
    [true, false, true, true, true, false, false, false],
    [false, true, true, true, true, false, false, false],
    [true, true, true, true, false, false, false, false],
    [false, false, false, false, false, false, false, false],
    [true, false, false, false, true, false, false, false],
    [false, true, false, false, true, true, false, false],
    [true, true, false, false, false, true, false, false],
    [false, false, true, false, true, true, false, false],
    [true, false, true, false, false, true, false, false],
    [false, true, true, false, false, false, false, false],
    [true, true, true, false, true, false, false, false],
    [false, false, false, true, false, true, false, false],
    [true, false, false, true, true, true, false, false],
    [false, true, false, true, true, false, false, false],
    [true, true, false, true, false, false, false, false],
    [false, false, true, true, true, false, false, false],
    [true, false, true, true, false, false, false, false],
    [false, true, true, true, false, true, false, false],
    [true, true, true, true, true, true, false, false],
    [false, false, false, false, false, false, false, false],
    [true, false, false, false, true, false, true, false],
    [false, true, false, false, true, true, true, false],
    [true, true, false, false, false, true, false, false],
    [false, false, true, false, true, true, false, false],
    [true, false, true, false, false, true, true, false],
    [false, true, true, false, false, false, true, false],
    [true, true, true, false, true, false, false, false],
    [false, false, false, true, false, true, true, false],
    [true, false, false, true, true, true, false, false],
    [false, true, false, true, true, false, false, false],
    [true, true, false, true, false, false, true, false],
    [false, false, true, true, true, false, true, false],
    [true, false, true, true, false, false, false, false],
    [false, true, true, true, false, true, false, false],
    [true, true, true, true, true, true, true, false],
    [false, false, false, false, false, false, false, false],
    [true, false, false, false, true, false, true, true],
    [false, true, false, false, true, true, true, false],
    [true, true, false, false, false, true, false, true],
    [false, false, true, false, true, true, false, true],
    [true, false, true, false, false, true, true, false],
    [false, true, true, false, false, false, true, true],
    [true, true, true, false, true, false, false, false],
    [false, false, false, true, false, true, true, true],
    [true, false, false, true, true, true, false, false],
    [false, true, false, true, true, false, false, true],
    [true, true, false, true, false, false, true, false],
    [false, false, true, true, true, false, true, false],
    [true, false, true, true, false, false, false, true],
    [false, true, true, true, false, true, false, false],
    [true, true, true, true, true, true, true, true],
];

// The rows, for a caller that lends them: a constant array is copied at each use.
pub fn rows() -> [[bool; 8]; 64]
    ensures { result ≡ tab 64 row_of_code }
{
    ROWS
}

// What the words are read as, for a caller that lends it.
pub fn readings() -> [u8; WORDS]
    ensures { result ≡ reading_table }
{
    READINGS
}

// What the bits add, for a caller that lends it.
pub fn steps() -> [u64; BITS]
    ensures { result ≡ step_table }
{
    STEPS
}

// What a word of this rate is read as.
pub fn read_word(readings: &[u8; WORDS], cr: u8, w: u8) -> u8
    requires { (readings.now ≡ reading_table) × Rate cr × (w < 2 ^ (4 + cr)) }
    ensures { result ≡ reading_of cr w }
{
    let place = usize::from(bits::power(4 + usize::from(cr))) - 32 + usize::from(w);
    readings[place]
}

// The nibble of a reading.
pub fn nibble(reading: u8) -> u8
    ensures { result ≡ nibble_in reading }
{
    reading % 16
}

// The bit that was flipped, 0 to 7; 8 where none was.
pub fn flipped_bit(reading: u8) -> u8
    ensures { result ≡ bit_in reading }
{
    reading / 16
}

// 1 where no bit was flipped, and else 0.
pub fn clean(reading: u8) -> u8
    ensures { result ≡ clean_in reading }
{
    reading / 128
}

pub fn unreadable(reading: u8) -> bool
    ensures { result ≡ none_in reading }
{
    reading >= 144
}
