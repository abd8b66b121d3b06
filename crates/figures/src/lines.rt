// Our numbers, line by line.
ghost use Rattle.std.specs.Prelude.{◌<◌};

use crate::{ours, rules};

// The word that symbol k of the header's block carries at SF 11, or its value: three hexadecimal digits with the lowest first,
// as 001's "Gray Mapping" prints them.
fn mapped(k: usize, value: bool) -> usize {
    let symbol = (ours::coded(11, false, 1, 2, 2 + k % 8) % 65536) as u16;
    let word = block::word_of_number(9, true, symbol);
    let x = if value {
        block::value_of_word(9, word % 512)
    } else {
        word
    };
    usize::from(x % 16 * 256 + x / 16 % 16 * 16 + x / 256)
}

// The word that symbol k of the second block carries at SF 8, turned down by so many places: 257 times the word is the word
// twice, side by side.
fn later(k: usize, places: u16) -> usize
    requires { places < 8 }
{
    let symbol = (ours::coded(8, false, 1, 2, 10 + k % 5) % 65536) as u16;
    let word = block::word_of_number(8, false, symbol);
    usize::from((word % 256 * 257) >> places) % 256
}

// Number k on a line of the text in main. The first is line 0: 01's examples, 001's slides from line 6 on, rules from line 15 on.
pub fn ours(line: usize, k: usize) -> usize {
    let first = k == 0;
    match line {
        0 => ours::coded(11, false, 1, 2, 2 + k % 13),
        1 => ours::airtime(first),
        2 => ours::coded(7, true, 4, 255, k),
        3 => ours::coded(7, true, 4, 256, k),
        4 => ours::coded(6, true, 4, 2, k),
        5 => ours::coded(13, true, 4, 2, k),
        // The nibbles that share the first eight symbols with the header are counted with its own.
        6 => layout::first_block((8 + k % 2 * 3) as u8).rows,
        7 | 8 => ours::whitening(k),
        // That these rows are our words once each codeword has its parity first, so that column 4 becomes column 0, shows that
        // nothing else differs.
        9 => later(k, 0),
        10 => later(4, 4),
        11 => later(k, 1),
        12 => mapped(k, true),
        13 => mapped(k, false),
        14 => mapped(7, false),
        15 => rules::compared(|i| rules::is_by_formula(i, true, false), 24576, first),
        16 => rules::compared(|i| rules::is_by_formula(i, true, true), 24576, first),
        17 => rules::compared(|i| rules::is_by_formula(i, false, false), 24576, first),
        18 => rules::compared(rules::is_by_register, 255, first),
        19 => rules::compared(rules::is_by_generators, 64, first),
        20 => rules::compared(rules::is_by_checks, 2048, first),
        _ => ours::checks(k),
    }
}
