// The five header nibbles, and what five nibbles say.
#![tactic(auto)]

ghost use Rattle.std.specs.Prelude.{◌≡◌, ◌+◌, ◌*◌, ◌<◌, ◌≤◌};
ghost use Rattle.bits.specs.Bit.{bit, as_bit};
ghost use Rattle.header.specs.Header.{c0, c1, c2, c3, c4, low_checks, header_nibbles, checks_hold, zeros_hold, rate_holds, header_in, verdict_of};

use refusal::Refusal;

// What a header says: the payload's length, the rate, and whether a checksum follows the payload.
#[derive(Clone, Copy, Debug, PartialEq, Eq)]
pub struct Header {
    pub length: usize,
    pub cr: u8,
    pub checked: bool,
}

// Bit k of x.
#[tactic(auto, unfolding(bits::specs::Bit::bit))]
fn bit(k: u8, x: u8) -> u8
    requires { k < 8 }
    ensures { (result ≡ bit k x) × (result < 2) }
{
    (x >> k) % 2
}

// The check bits of the first three nibbles a, b and e: c4, c3, c2, c1 and c0. One function each, with its sum as document 01 has it:
// one for all, by a table of masks, would say them less plainly.
fn check4(a: u8) -> u8
    ensures { result ≡ c4 a }
{
    (bit(3, a) + bit(2, a) + bit(1, a) + bit(0, a)) % 2
}

fn check3(a: u8, b: u8, e: u8) -> u8
    ensures { result ≡ c3 a b e }
{
    (bit(3, a) + bit(3, b) + bit(2, b) + bit(1, b) + bit(0, e)) % 2
}

fn check2(a: u8, b: u8, e: u8) -> u8
    ensures { result ≡ c2 a b e }
{
    (bit(2, a) + bit(3, b) + bit(0, b) + bit(3, e) + bit(1, e)) % 2
}

fn check1(a: u8, b: u8, e: u8) -> u8
    ensures { result ≡ c1 a b e }
{
    (bit(1, a) + bit(2, b) + bit(0, b) + bit(2, e) + bit(1, e) + bit(0, e)) % 2
}

fn check0(a: u8, b: u8, e: u8) -> u8
    ensures { result ≡ c0 a b e }
{
    (bit(0, a) + bit(1, b) + bit(0, b) + bit(3, e) + bit(2, e) + bit(1, e) + bit(0, e)) % 2
}

// c3 c2 c1 c0 as a nibble.
fn low_checks(a: u8, b: u8, e: u8) -> u8
    ensures { result ≡ low_checks a b e }
{
    check3(a, b, e) * 8 + check2(a, b, e) * 4 + check1(a, b, e) * 2 + check0(a, b, e)
}

// The third nibble: CR x 2 + checksum flag.
fn third(cr: u8, checked: bool) -> u8
    requires { cr ≤ 4 }
    ensures { result ≡ cr * 2 + as_bit checked }
{
    cr * 2 + u8::from(checked)
}

// The header of a payload.
#[tactic(auto, unfolding(crate::specs::Header::header_nibbles, crate::specs::Header::with_checks))]
pub fn header_nibbles(length: usize, cr: u8, checked: bool) -> [u8; 5]
    requires { (length < 256) × (cr ≤ 4) }
    ensures { result ≡ header_nibbles length cr checked }
{
    // `as`, since both are nibbles, and TryFrom would answer an error that can't come.
    let a = (length / 16) as u8;
    let b = (length % 16) as u8;
    let e = third(cr, checked);
    [a, b, e, check4(a), low_checks(a, b, e)]
}

// Whether the five check bits are those of the first three nibbles.
fn checks_hold(h: [u8; 5]) -> bool
    ensures { result ≡ checks_hold h }
{
    bit(0, h[3]) == check4(h[0]) && h[4] == low_checks(h[0], h[1], h[2])
}

// Whether the bits that must be 0 are.
fn zeros_hold(h: [u8; 5]) -> bool
    ensures { result ≡ zeros_hold h }
{
    h[3] / 2 == 0
}

// Whether the header's CR is 1 to 4.
fn rate_holds(h: [u8; 5]) -> bool
    ensures { result ≡ rate_holds h }
{
    0 < h[2] / 2 && h[2] / 2 < 5
}

// The length from its high and its low nibble.
fn length_of(a: u8, b: u8) -> usize
    ensures { result ≡ a * 16 + b }
{
    usize::from(a) * 16 + usize::from(b)
}

// What the first three nibbles say.
fn header_in(h: [u8; 5]) -> Header
    ensures { result ≡ header_in h }
{
    Header {
        length: length_of(h[0], h[1]),
        cr: h[2] / 2,
        checked: h[2] % 2 == 1,
    }
}

// What five nibbles say.
#[tactic(auto, unfolding(crate::specs::Header::verdict_of))]
pub fn judge(h: [u8; 5]) -> Result<Header, Refusal>
    ensures { result ≡ verdict_of h }
{
    if !checks_hold(h) {
        return Err(Refusal {
            number: refusal::HEADER_CHECK,
            place: 0,
        });
    }
    if !zeros_hold(h) {
        return Err(Refusal {
            number: refusal::HEADER_BIT,
            place: 0,
        });
    }
    if !rate_holds(h) {
        return Err(Refusal {
            number: refusal::HEADER_CR,
            place: 0,
        });
    }
    Ok(header_in(h))
}
