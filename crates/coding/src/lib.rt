// From a frame's header, payload and checksum to its symbols, block by block.
#![tactic(auto)]

ghost use Rattle.std.specs.Prelude.{◌≡◌, ℕ, ◌+◌, ◌*◌, ◌≤◌, ◌<◌, length, get_or};
ghost use Rattle.bits.specs.Tab.{tab, over, over_at, blank};
ghost use Rattle.codeword.specs.Rows.{row_of_code};
ghost use Rattle.layout.specs.Layout.{symbols_of};
ghost use Rattle.layout.specs.Ranges.{Valid, Fits};
ghost use Rattle.whitening.specs.Whitening.{whitened};
ghost use Rattle.coding.specs.Nibbles.{half_of, nibble_of_bytes, nibble_with};
ghost use Rattle.coding.specs.Ranges.{Sendable};
ghost use Rattle.coding.specs.Symbols.{symbol_at};
ghost use Rattle.coding.specs.Stages.{places, checksum_byte, grid_of_nibbles, symbol_of_column};

use layout::{Block, Frame, LONGEST};

// The nibble of the places left over.
const FILLER: u8 = 0;

// Places for nibbles: the largest frame has 519, and its last block room for fewer than 12 more. Contracts have it as `places`.
const PLACES: usize = 532;

// A byte gives its low nibble first.
fn put_byte(byte: u8, at: usize, nibbles: &mut [u8; PLACES])
    requires { at + 2 ≤ places }
    ensures { nibbles.new ≡ over_at at 2 (half_of byte) nibbles.old }
{
    nibbles[at] = byte % 16;
    nibbles[at + 1] = byte / 16;
}

// A list's bytes, one behind the other.
fn put_bytes(bytes: &[u8], at: usize, nibbles: &mut [u8; PLACES])
    requires { at + 2 * length bytes.now ≤ places }
    ensures { nibbles.new ≡ over_at at (2 * length bytes.now) (nibble_of_bytes (λ p. get_or bytes.now p 0)) nibbles.old }
{
    // The place is computed: std says nothing of a list behind `chunks_exact_mut`.
    for (p, byte) in bytes.iter().enumerate() {
        put_byte(*byte, at + 2 * p, nibbles);
    }
}

// The payload behind the header, whitened.
fn put_payload(payload: &[u8], at: usize, nibbles: &mut [u8; PLACES])
    requires { (length payload.now ≤ 255) × (at ≤ 5) }
    ensures { nibbles.new ≡ over_at at (2 * length payload.now) (nibble_of_bytes (whitened (λ p. get_or payload.now p 0))) nibbles.old }
{
    let mut bytes = [0u8; LONGEST];
    bytes[..payload.len()].copy_from_slice(payload);
    whitening::whiten(&mut bytes, payload.len());
    put_bytes(&bytes[..payload.len()], at, nibbles);
}

// The checksum behind the payload, low byte first.
fn put_checksum(checksum: u16, at: usize, nibbles: &mut [u8; PLACES])
    requires { at + 4 ≤ places }
    ensures { nibbles.new ≡ over_at at 4 (nibble_of_bytes (checksum_byte checksum)) nibbles.old }
{
    put_bytes(&checksum.to_le_bytes(), at, nibbles);
}

// All nibbles of a frame, with fillers for every place that its last block may have.
fn put_frame(
    header: &[u8],
    payload: &[u8],
    checksum: u16,
    checked: bool,
    nibbles: &mut [u8; PLACES],
)
    requires { (length header.now ≤ 5) × (length payload.now ≤ 255) × (nibbles.old ≡ blank places 0) }
    ensures { nibbles.new ≡ over places (nibble_with header.now payload.now checksum checked) nibbles.old }
{
    nibbles[..header.len()].copy_from_slice(header);
    put_payload(payload, header.len(), nibbles);
    if checked {
        put_checksum(checksum, header.len() + 2 * payload.len(), nibbles);
    }
}

// A block's codewords in the grid. The loop runs over all 12 rows, so that the compiler keeps the grid in registers.
fn grid_of_block(b: Block, rows: &[[bool; 8]; 64], nibbles: &[u8; PLACES]) -> [[bool; 8]; 12]
    requires { Fits b × (b.codeword ≤ 519) × (rows.now ≡ tab 64 row_of_code) × ((i : ℕ) → get_or nibbles.now i 0 < 16) }
    ensures { result ≡ grid_of_nibbles b (λ i. get_or nibbles.now i 0) }
{
    let line = 16 * (usize::from(b.rate) - 1);
    let first = b.codeword;
    let n = b.rows;
    let mut g = [[false; 8]; 12];
    for (i, row) in g.iter_mut().enumerate() {
        if i < n {
            *row = rows[line + usize::from(nibbles[first + i])];
        }
    }
    g
}

// Writes the symbols of a block's grid.
fn write_block(b: Block, g: [[bool; 8]; 12], out: &mut [u16])
    requires { Fits b × (b.symbol + (4 + b.rate) ≤ length out.old) }
    ensures { out.new ≡ over_at b.symbol (4 + b.rate) (symbol_of_column b g) out.old }
{
    let columns = 4 + usize::from(b.rate);
    let words = block::words_of_grid(b.rows, columns, g);
    // By number, since std says nothing of a list behind `iter_mut().zip()`.
    for (j, symbol) in out[b.symbol..b.symbol + columns].iter_mut().enumerate() {
        *symbol = block::number_of_value(b.spaced, block::value_of_word(b.rows, words[j]));
    }
}

// Writes the symbols of a frame.
pub fn write_frame(f: Frame, header: &[u8], payload: &[u8], checksum: u16, out: &mut [u16])
    requires { Valid f × Sendable f header.now payload.now × (symbols_of f (length payload.now) ≤ length out.old) }
    ensures { out.new ≡ over (symbols_of f (length payload.now)) (symbol_at f (nibble_with header.now payload.now checksum f.checked)) out.old }
{
    let count = layout::nibbles_of(f, payload.len());
    let blocks = layout::later_blocks(f, count) + 1;
    let mut nibbles = [FILLER; PLACES];
    put_frame(header, payload, checksum, f.checked, &mut nibbles);
    let rows = codeword::rows();
    // A block's place and shape are computed from its number.
    for k in 0..blocks {
        let b = layout::block_at(f, k);
        write_block(b, grid_of_block(b, &rows, &nibbles), out);
    }
}
