// What the crates below answer.
ghost use Rattle.std.specs.Prelude.{◌≤◌};

use lora::{Kind, Settings};
use refusal::Refusal;

// A refusal's number, then its place; the number of symbols where there is none.
pub fn answer(counted: Result<usize, Refusal>, k: usize) -> usize {
    match counted {
        Ok(count) => count,
        Err(e) if k == 0 => usize::from(e.number),
        Err(e) => e.place,
    }
}

// The airtime of the example of 01 and 001, payload 00 00 at 4/5 with a checksum, at SF 11, n = 8, 125 kHz: milliseconds, or
// the microseconds besides.
pub fn airtime(first: bool) -> usize {
    let settings = Settings {
        sf: 11,
        low: false,
        kind: Kind::Explicit {
            cr: 1,
            checked: true,
        },
    };
    let time = lora::airtime(settings, 2, 125, 8).unwrap_or(0);
    let part = if first { time / 1000 } else { time % 1000 };
    part as usize
}

// What code makes of a payload of zeros, with a checksum: the two numbers of its answer and then the symbols, of which this is
// number k. The cells, one less than the largest frame has, start at 65535, which is no symbol: one that is not written shows.
pub fn coded(sf: u8, low: bool, cr: u8, length: usize, k: usize) -> usize
    requires { length ≤ 256 }
{
    let payload = [0u8; 256];
    let mut cells = [65535u16; 831];
    let settings = Settings {
        sf,
        low,
        kind: Kind::Explicit { cr, checked: true },
    };
    let counted = lora::code(settings, &payload[0..length], &mut cells);
    if k < 2 {
        answer(counted, k)
    } else {
        usize::from(cells[(k - 2) % 831])
    }
}

// Whitening byte k: what a payload of zeros is whitened to.
pub fn whitening(k: usize) -> usize {
    let mut bytes = [0u8; 255];
    whitening::whiten(&mut bytes, 255);
    usize::from(bytes[k % 255])
}

// The codeword that we send for nibble i % 16 at CR 1 + i / 16, out of a grid whose rows are all its own.
pub fn codeword(i: usize) -> usize {
    let rows = codeword::rows();
    let grid = [rows[i % 64]; 12];
    usize::from(block::codeword_of_grid(8, &grid, 0))
}

// The check bits, which are the last two nibbles, of header number i, of the 2,048 in the order of CR, then flag, then length.
pub fn checks(i: usize) -> usize {
    let h = header::header_nibbles(i % 256, (1 + i / 512 % 4) as u8, i / 256 % 2 == 1);
    usize::from(h[3] % 16 * 16 + h[4] % 16)
}
