// The text of the figures with our numbers put in, and whether they are the document's.
use crate::{lines, matrices};

// Where in the text we are: the line; which number of ours or of the document's comes next; whether this line's numbers are
// hexadecimal; what of the document's number is read; whether the document's numbers on this line are ours so far.
#[derive(Clone, Copy)]
struct Place {
    line: usize,
    entry: usize,
    hex: bool,
    number: usize,
    same: bool,
}

fn put(rt: &impl Print, c: u8) {
    let _ = rt.write_all(&[c]);
}

fn number(rt: &impl Print, n: usize, hex: bool) {
    let _ = if hex {
        print!(rt; "{n:02x}")
    } else {
        print!(rt; "{n}")
    };
}

fn verdict(rt: &impl Print, same: bool) {
    let words = if same { " | agrees" } else { " | differs" };
    let _ = println!(rt; "{words}");
}

// A number with one more digit, 0 to 9 or a to f.
fn longer(number: usize, hex: bool, c: u8) -> usize {
    let digit = usize::from(c % 16 + c / 64 * 9);
    if hex {
        number % 65536 * 16 + digit
    } else {
        number % 65536 * 10 + digit
    }
}

// Writes what a byte of the text stands for, and goes on to the next. What is read as digits before a bar is no number of the
// document's: the bar forgets it.
fn step(rt: &impl Print, mut p: Place, c: u8) -> Place {
    match c {
        b'#' | b'$' => {
            p.hex = c == b'$';
            number(rt, lines::ours(p.line, p.entry), p.hex);
            p.entry = p.entry % 256 + 1;
        }
        b'@' => {
            p.number = matrices::checks(p.entry);
            number(rt, p.number, true);
        }
        b'|' => {
            p.entry = 0;
            p.number = 0;
            put(rt, c);
        }
        b';' => {
            p.same = p.same & (p.number == lines::ours(p.line, p.entry));
            p.entry = p.entry % 256 + 1;
            p.number = 0;
        }
        b'\n' => {
            verdict(rt, p.same);
            p.line = p.line % 256 + 1;
            p.same = true;
        }
        _ => {
            p.number = longer(p.number, p.hex, c);
            put(rt, c);
        }
    }
    p
}

pub fn figures(rt: &impl Print, text: &[u8]) {
    let mut place = Place {
        line: 0,
        entry: 0,
        hex: false,
        number: 0,
        same: true,
    };
    for c in text {
        place = step(rt, place, *c);
    }
}
