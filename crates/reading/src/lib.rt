// From received symbols to a frame's nibbles, block by block, and from nibbles to the payload.
#![tactic(auto)]

ghost use Rattle.std.specs.Prelude.{◌≡◌, ℕ, ◌+◌, ◌≤◌, ◌<◌, min, length, get_or};
ghost use Rattle.bits.specs.Tab.{over, over_at, blank};
ghost use Rattle.codeword.specs.Ranges.{Rate};
ghost use Rattle.layout.specs.Layout.{rows_of_first, first_block, remaining, symbol_count};
ghost use Rattle.layout.specs.Ranges.{Valid, Fits};
ghost use Rattle.reading.specs.Payload.{byte_of_nibbles, payload_byte, sent_checksum};
ghost use Rattle.reading.specs.Stages.{symbol_word, grid_of_symbols, read_row, rows_from, data_found, later_found, Walk, listed, flips, bytes_of, Marked};

use layout::{Block, Frame, LONGEST, MOST_SYMBOLS};

mod tables;

pub use tables::Tables;

// The most nibbles that a frame has.
pub const NIBBLES: usize = 519;

// How far a run of codewords was read, and the repairs on the way. No Result, since Walk promises both where a codeword can't be
// read too.
#[derive(Clone, Copy, Debug, PartialEq, Eq)]
pub struct Progress {
    pub end: usize,
    pub repairs: usize,
}

// The same of rows of a block's grid, and how often each bit of its rows was flipped so far, in a byte each.
#[derive(Clone, Copy, Debug, PartialEq, Eq)]
pub struct Rows {
    pub end: usize,
    pub repairs: usize,
    pub flips: u64,
}

// The symbol words received in a block's columns.
fn words_of_block(b: Block, symbols: &[u16]) -> [u16; 8]
    requires { Fits b × (b.symbol + (4 + b.rate) ≤ length symbols.now) }
    ensures { result ≡ over (4 + b.rate) (symbol_word b symbols.now) (blank 8 0) }
{
    let received = &symbols[b.symbol..b.symbol + 4 + usize::from(b.rate)];
    let mut words = [0u16; 8];
    // By number, since std says nothing of a list behind `iter_mut().zip()`.
    for (j, symbol) in received.iter().enumerate() {
        words[j] = block::word_of_number(b.rows, b.spaced, *symbol);
    }
    words
}

// The grid of a block.
#[tactic(auto, unfolding(crate::specs::Stages::grid_of_symbols))]
fn grid_of_block(b: Block, symbols: &[u16]) -> [[bool; 8]; 12]
    requires { Fits b × (b.symbol + (4 + b.rate) ≤ length symbols.now) }
    ensures { result ≡ grid_of_symbols b symbols.now }
{
    block::grid_of_words(b.rows, words_of_block(b, symbols))
}

// The grid of block 0.
pub fn first_grid(sf: u8, symbols: &[u16]) -> [[bool; 8]; 12]
    requires { (7 ≤ sf) × (sf ≤ 12) × (8 ≤ length symbols.now) }
    ensures { result ≡ grid_of_symbols (first_block sf) symbols.now }
{
    grid_of_block(layout::first_block(sf), symbols)
}

// Reads n codewords of a block's grid, from its row `from` on, into the nibbles from the place at on, up to the first that
// can't be read. The flips of the rows before are counted on.
pub fn read_rows(
    tables: &Tables,
    rate: u8,
    g: &[[bool; 8]; 12],
    from: usize,
    n: usize,
    at: usize,
    before: u64,
    nibbles: &mut [u8; NIBBLES],
) -> Rows
    requires { Rate rate × (from + n ≤ 12) × (at + n ≤ 519) × (before ≡ flips (read_row rate g.now) from) }
    ensures { Walk (rows_from rate g.now from) n at nibbles.old nibbles.new result.end result.repairs × (result.flips ≡ flips (read_row rate g.now) (from + result.end)) }
{
    let columns = 4 + usize::from(rate);
    let mut clean = 0;
    let mut flips = before;
    // The row is named by its number, from which the end and the repairs are told.
    for (i, cell) in nibbles[at..at + n].iter_mut().enumerate() {
        let word = block::codeword_of_grid(columns, g, from + i);
        let reading = tables.reading(rate, word);
        if codeword::unreadable(reading) {
            return Rows {
                end: i,
                repairs: i - clean,
                flips,
            };
        }
        *cell = codeword::nibble(reading);
        clean += usize::from(codeword::clean(reading));
        flips += tables.step(codeword::flipped_bit(reading));
    }
    Rows {
        end: n,
        repairs: n - clean,
        flips,
    }
}

// Writes a block's flips to the cells of its symbols, from the place at on. It writes eight, which is faster than as many as
// there are columns; what stands behind the block's own is written again with the next block.
fn mark(flips: u64, at: usize, hurts: &mut [u8; MOST_SYMBOLS])
    requires { at + 8 ≤ 832 }
    ensures { hurts.new ≡ over_at at 8 (bytes_of flips) hurts.old }
{
    hurts[at..at + 8].copy_from_slice(&flips.to_le_bytes());
}

// Reads the codewords behind block 0, in a frame of n codewords, up to the first that can't be read, and marks their symbols.
fn read_later(
    tables: &Tables,
    f: Frame,
    symbols: &[u16],
    n: usize,
    nibbles: &mut [u8; NIBBLES],
    hurts: &mut [u8; MOST_SYMBOLS],
) -> Progress
    requires { Valid f × (rows_of_first f.sf ≤ n) × (n ≤ 519) × (symbol_count f n ≤ length symbols.now) × Marked f symbols.now (rows_of_first f.sf) 8 hurts.old }
    ensures { Walk (later_found f symbols.now) (remaining f n) (rows_of_first f.sf) nibbles.old nibbles.new result.end result.repairs × (remaining f n ≤ result.end → Marked f symbols.now n (symbol_count f n) hurts.new) }
{
    let start = layout::first_block(f.sf).rows;
    let blocks = layout::later_blocks(f, n) + 1;
    let mut repairs = 0;
    // A block's place and shape are computed from its number.
    for k in 1..blocks {
        let b = layout::block_at(f, k);
        let at = b.codeword;
        let rows = b.rows.min(n - at);
        let g = grid_of_block(b, symbols);
        let p = read_rows(tables, b.rate, &g, 0, rows, at, 0, nibbles);
        mark(p.flips, b.symbol, hurts);
        repairs += p.repairs;
        if p.end < rows {
            return Progress {
                end: at - start + p.end,
                repairs,
            };
        }
    }
    Progress {
        end: n - start,
        repairs,
    }
}

// Reads the n data codewords of a frame, those behind its header, up to the first that can't be read, and marks the frame's
// symbols; `first` is the grid of block 0, and `before` has the flips of its header's codewords.
pub fn read_data(
    tables: &Tables,
    f: Frame,
    first: &[[bool; 8]; 12],
    before: u64,
    symbols: &[u16],
    n: usize,
    nibbles: &mut [u8; NIBBLES],
    hurts: &mut [u8; MOST_SYMBOLS],
) -> Progress
    requires { Valid f × (first.now ≡ grid_of_symbols (first_block f.sf) symbols.now) × (before ≡ flips (read_row 4 first.now) f.header) × (f.header + n ≤ 519) × (symbol_count f (f.header + n) ≤ length symbols.now) }
    ensures { Walk (data_found f symbols.now) n f.header nibbles.old nibbles.new result.end result.repairs × (n ≤ result.end → Marked f symbols.now (f.header + n) (symbol_count f (f.header + n)) hurts.new) }
{
    let header = f.header;
    let b = layout::first_block(f.sf);
    let inside = b.rows - header;
    let rows = inside.min(n);
    let p = read_rows(tables, b.rate, first, header, rows, header, before, nibbles);
    mark(p.flips, b.symbol, hurts);
    if p.end < inside {
        return Progress {
            end: p.end,
            repairs: p.repairs,
        };
    }
    let rest = read_later(tables, f, symbols, header + n, nibbles, hurts);
    Progress {
        end: inside + rest.end,
        repairs: p.repairs + rest.repairs,
    }
}

// Byte p of the data behind a header of so many nibbles. That each is below 16 is asked for here and below, and is no type's: what
// was read says it (Walk), and a type of its own would need a view, and a way to each cell.
#[tactic(auto, unfolding(crate::specs::Payload::byte_of_nibbles, crate::specs::Stages::listed))]
fn byte_of_nibbles(nibbles: &[u8; NIBBLES], header: usize, p: usize) -> u8
    requires { (header ≤ 5) × (p ≤ 256) × ((i : ℕ) → get_or nibbles.now i 0 < 16) }
    ensures { result ≡ byte_of_nibbles header (listed nibbles.now) p }
{
    let low = nibbles[header + 2 * p];
    let high = nibbles[header + 2 * p + 1];
    low + 16 * high
}

// The first len bytes of the payload behind such a header.
pub fn payload_of_nibbles(nibbles: &[u8; NIBBLES], header: usize, len: usize) -> [u8; LONGEST]
    requires { (header ≤ 5) × (len ≤ 255) × ((i : ℕ) → get_or nibbles.now i 0 < 16) }
    ensures { result ≡ over len (payload_byte header (listed nibbles.now)) (blank 255 0) }
{
    let mut payload = [0u8; LONGEST];
    for (p, byte) in payload[..len].iter_mut().enumerate() {
        *byte = byte_of_nibbles(nibbles, header, p);
    }
    whitening::whiten(&mut payload, len);
    payload
}

// The checksum sent behind a payload of len bytes.
#[tactic(auto, unfolding(crate::specs::Payload::sent_checksum))]
pub fn checksum_of_nibbles(nibbles: &[u8; NIBBLES], header: usize, len: usize) -> u16
    requires { (header ≤ 5) × (len ≤ 255) × ((i : ℕ) → get_or nibbles.now i 0 < 16) }
    ensures { result ≡ sent_checksum header (listed nibbles.now) len }
{
    let low = byte_of_nibbles(nibbles, header, len);
    let high = byte_of_nibbles(nibbles, header, len + 1);
    u16::from(low) + 256 * u16::from(high)
}
