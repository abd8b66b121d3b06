// Rules of the documents against ours, case by case.
use crate::{matrices, ours};
use lora::{Kind, Settings};

// What we count for number i of the 24,576 settings, in the order of SF, low rate, CR, flag, length.
fn symbols(i: usize, header: bool) -> usize {
    let length = i % 256;
    let cr = (1 + i / 512 % 4) as u8;
    let checked = i / 256 % 2 == 1;
    let kind = if header {
        Kind::Explicit { cr, checked }
    } else {
        Kind::Agreed {
            length,
            cr,
            checked,
        }
    };
    let settings = Settings {
        sf: (7 + i / 4096 % 6) as u8,
        low: i / 2048 % 2 == 1,
        kind,
    };
    ours::answer(lora::count(settings, length), 1)
}

// Their blocks behind the first by 001, "Airtime": (8 PL - 4 SF + 28 + 16 CRC - 20 H) / (4 N) rounded up, so 4 N - 1 more above the
// line, where 4 N - 4 SF is -8 at low rate; H is 0 with a header and 1 without. What is then above the line is negative only without
// a header, at low rate, with nothing to send: there max gives 0.
fn blocks(i: usize, header: bool) -> usize {
    let low = i / 2048 % 2;
    let n = 7 + i / 4096 % 6 - 2 * low;
    let data = 8 * (i % 256) + 16 * (i / 256 % 2);
    let bits = if header { data + 27 } else { data + 7 };
    if bits < 8 * low {
        return 0;
    }
    (bits - 8 * low) / (4 * n)
}

// Whether the symbols behind the first eight are the blocks times CR + 4 or, as printed, times 4 / (CR + 4), rounded down.
pub fn is_by_formula(i: usize, header: bool, printed: bool) -> bool {
    let symbols = symbols(i, header);
    let blocks = blocks(i, header);
    if symbols < 8 {
        return false;
    }
    let later = symbols - 8;
    let factor = 5 + i / 512 % 4;
    if printed {
        later == blocks % 256 * 4 / factor
    } else {
        (later / factor == blocks) & (later % factor == 0)
    }
}

// Whether whitening byte i is the register's state after the byte before it, or first FF.
pub fn is_by_register(i: usize) -> bool {
    if i == 0 {
        ours::whitening(0) == 0xFF
    } else {
        ours::whitening(i) == matrices::product(ours::whitening(i - 1), 28)
    }
}

// Whether codeword i of those at CR 1 to 4 is the matrices'.
pub fn is_by_generators(i: usize) -> bool {
    ours::codeword(i) == matrices::product(i % 16, i / 16 % 4 * 4)
}

// Whether the check bits of header i are the matrix's.
pub fn is_by_checks(i: usize) -> bool {
    ours::checks(i) == matrices::checks(i)
}

// In how many cases we answer what the document's rule does, where that is wanted, or something else, where it is not.
pub fn compared<F: Fn(usize) -> bool>(alike: F, cases: usize, wanted: bool) -> usize
    requires { F.IsAlwaysCallable alike }
{
    (0..cases).filter(|i| alike(*i) == wanted).count()
}
