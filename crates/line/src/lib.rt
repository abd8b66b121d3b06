// An answer of read as the line that the reading program prints.
#![tactic(auto)]

ghost use Rattle.std.specs.Prelude.{◌≡◌, [], ◌∷◌, ◌++◌, ◌+◌, ◌*◌, ◌≤◌, ◌<◌, length};
ghost use Rattle.bits.specs.Tab.{placed};
ghost use Rattle.line.specs.Line.{decimal, field, hex_digit, hex_byte, hex, shown, line_of};
ghost use Rattle.put.specs.Put.{Put};

use lora::Received;
use put::put;
pub use put::put_words;

// What came of a text. Of a capture: what read said of it, or the refusal of a text that is none. Of a wish: that its frame was
// made, or that it was refused.
#[derive(Clone, Copy)]
pub enum Outcome {
    Heard(Received),
    Made,
    Unmade,
}

// Room for the longest line, and more.
pub const LINE: usize = 640;

// The line that answers a text, in a lent buffer: its length, and what came of the text.
#[derive(Clone, Copy)]
pub struct Answer {
    pub length: usize,
    pub outcome: Outcome,
}

fn decimal_digit(n: usize) -> u8
    requires { n < 10 }
    ensures { result ≡ 48 + n }
{
    b'0' + n as u8
}

pub fn put_decimal(out: &mut [u8], at: usize, n: usize) -> usize
    requires { at + length (decimal n) ≤ length out.old }
    ensures { Put at (decimal n) out.old out.new result }
{
    if n < 10 {
        put(out, at, decimal_digit(n))
    } else {
        let next = put_decimal(out, at, n / 10);
        put(out, next, decimal_digit(n % 10))
    }
}

pub fn put_field(out: &mut [u8], at: usize, n: usize) -> usize
    requires { at + 21 ≤ length out.old }
    ensures { Put at (field n) out.old out.new result × (result ≤ at + 21) }
{
    let next = put(out, at, b' ');
    put_decimal(out, next, n)
}

fn hex_digit(d: u8) -> u8
    requires { d < 16 }
    ensures { result ≡ hex_digit d }
{
    if d < 10 { b'0' + d } else { b'A' + (d - 10) }
}

fn put_byte(out: &mut [u8], at: usize, b: u8) -> usize
    requires { at + 2 ≤ length out.old }
    ensures { Put at (hex_byte b) out.old out.new result }
{
    let next = put(out, at, hex_digit(b / 16));
    put(out, next, hex_digit(b % 16))
}

fn put_hex(out: &mut [u8], at: usize, payload: &[u8]) -> usize
    requires { at + length (hex payload.now) ≤ length out.old }
    ensures { Put at (hex payload.now) out.old out.new result }
{
    let mut next = at;
    for &b in payload {
        next = put_byte(out, next, b);
    }
    next
}

fn put_shown(out: &mut [u8], at: usize, payload: &[u8]) -> usize
    requires { at + (2 * length payload.now + 1) ≤ length out.old }
    ensures { Put at (shown payload.now) out.old out.new result × (result ≤ at + (2 * length payload.now + 1)) }
{
    if payload.is_empty() {
        put(out, at, b'-')
    } else {
        put_hex(out, at, payload)
    }
}

// The last field, and the line's end.
pub fn put_payload(out: &mut [u8], at: usize, payload: &[u8]) -> usize
    requires { at + (2 * length payload.now + 3) ≤ length out.old }
    ensures { Put at ((32 ∷ shown payload.now) ++ (10 ∷ [])) out.old out.new result }
{
    let after_space = put(out, at, b' ');
    let after_payload = put_shown(out, after_space, payload);
    put(out, after_payload, b'\n')
}

// Writes the line into the lent buffer and answers its length.
pub fn write_line(answer: Received, payload: &[u8], out: &mut [u8]) -> usize
    requires { (length payload.now ≤ 255) × (640 ≤ length out.old) }
    ensures { (result ≡ length (line_of answer payload.now)) × (out.new ≡ placed 0 (line_of answer payload.now) out.old) }
{
    match answer {
        Ok(a) => {
            let after_ok = put_words(out, 0, b"ok");
            let after_length = put_field(out, after_ok, a.length);
            let after_cr = put_field(out, after_length, usize::from(a.cr));
            let after_flag = put_field(out, after_cr, usize::from(a.checked));
            let after_symbols = put_field(out, after_flag, a.symbols);
            let after_repairs = put_field(out, after_symbols, a.repairs);
            put_payload(out, after_repairs, payload)
        }
        Err(e) => {
            let after_no = put_words(out, 0, b"no");
            let after_number = put_field(out, after_no, usize::from(e.number));
            let after_place = put_field(out, after_number, e.place);
            put(out, after_place, b'\n')
        }
    }
}
