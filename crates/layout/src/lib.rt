// Which codewords and symbols a block has, and how many symbols a frame has.
#![tactic(auto)]

ghost use Rattle.std.specs.Prelude.{◌≡◌, ◌+◌, ◌≤◌, ◌<◌};
ghost use Rattle.layout.specs.Layout.{valid_sf, valid_cr, rows_of_first, rows_of_later, first_block, block_of, data_nibbles, nibbles_of, later_blocks, symbols_of};
ghost use Rattle.layout.specs.Ranges.{Valid};

// The longest payload, in bytes, and the most symbols of a frame.
pub const LONGEST: usize = 255;

pub const MOST_SYMBOLS: usize = 832;

// The shape of a frame: spreading factor, low-rate flag, code rate, whether a checksum follows the payload, and the number of
// nibbles in its header. That it is valid each function asks: the type can't keep it, since lora's frame_of makes a frame of any
// settings. What is asked of a frame is a function, named as its definition in specs/Layout, and no method.
#[derive(Clone, Copy, Debug, PartialEq, Eq)]
pub struct Frame {
    pub sf: u8,
    pub low: bool,
    pub cr: u8,
    pub checked: bool,
    pub header: usize,
}

// A block: its code rate, its rows (codewords), whether its symbols stand four apart, and the numbers of its first codeword
// and its first symbol in the frame.
#[derive(Clone, Copy, Debug, PartialEq, Eq)]
pub struct Block {
    pub rate: u8,
    pub rows: usize,
    pub spaced: bool,
    pub codeword: usize,
    pub symbol: usize,
}

#[tactic(auto, unfolding(crate::specs::Layout::valid_sf))]
pub fn valid_sf(sf: u8) -> bool
    ensures { result ≡ valid_sf sf }
{
    (7..=12).contains(&sf)
}

#[tactic(auto, unfolding(crate::specs::Layout::valid_cr))]
pub fn valid_cr(cr: u8) -> bool
    ensures { result ≡ valid_cr cr }
{
    (1..=4).contains(&cr)
}

#[tactic(auto, unfolding(crate::specs::Layout::rows_of_first))]
fn rows_of_first(sf: u8) -> usize
    requires { 7 ≤ sf }
    ensures { result ≡ rows_of_first sf }
{
    usize::from(sf) - 2
}

#[tactic(auto, unfolding(crate::specs::Layout::rows_of_later, crate::specs::Layout::rows_of_first))]
fn rows_of_later(f: Frame) -> usize
    requires { Valid f }
    ensures { result ≡ rows_of_later f }
{
    if f.low {
        rows_of_first(f.sf)
    } else {
        usize::from(f.sf)
    }
}

// Block 0, which is the same whatever the rest of the frame is like.
#[tactic(auto, unfolding(crate::specs::Layout::first_block))]
pub fn first_block(sf: u8) -> Block
    requires { (7 ≤ sf) × (sf ≤ 12) }
    ensures { result ≡ first_block sf }
{
    Block {
        rate: 4,
        rows: rows_of_first(sf),
        spaced: true,
        codeword: 0,
        symbol: 0,
    }
}

// Block b of a frame.
pub fn block_at(f: Frame, b: usize) -> Block
    requires { Valid f × (b < 256) }
    ensures { result ≡ block_of f b }
{
    if b == 0 {
        return first_block(f.sf);
    }
    let first_rows = rows_of_first(f.sf);
    let rows = rows_of_later(f);
    let later = b - 1;
    Block {
        rate: f.cr,
        rows,
        spaced: f.low,
        codeword: first_rows + rows * later,
        symbol: 8 + (usize::from(f.cr) + 4) * later,
    }
}

#[tactic(auto, unfolding(crate::specs::Layout::data_nibbles))]
fn data_nibbles(length: usize, checked: bool) -> usize
    requires { length ≤ 255 }
    ensures { result ≡ data_nibbles length checked }
{
    if checked { 2 * length + 4 } else { 2 * length }
}

// The nibbles of a frame with a payload of so many bytes.
#[tactic(auto, unfolding(crate::specs::Layout::nibbles_of, crate::specs::Layout::data_nibbles))]
pub fn nibbles_of(f: Frame, length: usize) -> usize
    requires { Valid f × (length ≤ 255) }
    ensures { result ≡ nibbles_of f length }
{
    f.header + data_nibbles(length, f.checked)
}

// How many blocks follow block 0.
pub fn later_blocks(f: Frame, nibbles: usize) -> usize
    requires { Valid f × (nibbles ≤ 519) }
    ensures { result ≡ later_blocks f nibbles }
{
    let first_rows = rows_of_first(f.sf);
    let rows = rows_of_later(f);
    if nibbles <= first_rows {
        0
    } else {
        (nibbles - first_rows + (rows - 1)) / rows
    }
}

// The symbols of a frame with a payload of so many bytes.
pub fn symbols_of(f: Frame, length: usize) -> usize
    requires { Valid f × (length ≤ 255) }
    ensures { result ≡ symbols_of f length }
{
    8 + (usize::from(f.cr) + 4) * later_blocks(f, nibbles_of(f, length))
}
