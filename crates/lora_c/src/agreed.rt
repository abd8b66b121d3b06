// The operations for C and Rust of frames without a header. Numbers returned and cells are as with the function of the same name
// without `_agreed`; `agreed` is the length that was agreed.
ghost use Rattle.std.specs.Prelude.{◌≡◌, length};
ghost use Rattle.lora.specs.Airtime.{airtime_of};
ghost use Rattle.lora.specs.Code.{code_of};
ghost use Rattle.lora.specs.Count.{count_of};
ghost use Rattle.lora.specs.Read.{read_of};
ghost use Rattle.lora_c.specs.Export.{flag_of, agreed_of, expected_of, NumberExported, CodeExported, ReadExported};

use crate::{airtime_into, code_into, count_into, read_into};
use lora::{Expected, Kind, Settings};

// Settings without a header, both flags as numbers.
fn settings(sf: u8, low: u8, agreed: usize, cr: u8, checked: u8) -> Settings
    ensures { result ≡ agreed_of sf low agreed cr checked }
{
    Settings {
        sf,
        low: low != 0,
        kind: Kind::Agreed {
            length: agreed,
            cr,
            checked: checked != 0,
        },
    }
}

// How many symbols a frame has. answer[0] on acceptance: the count.
pub fn lora_count_agreed(
    sf: u8,
    low: u8,
    agreed: usize,
    cr: u8,
    checked: u8,
    len: usize,
    answer: &mut [u64],
) -> u8
    ensures { NumberExported (count_of (agreed_of sf low agreed cr checked) len) answer.old answer.new result }
{
    count_into(settings(sf, low, agreed, cr, checked), len, answer)
}

// A frame's time on air. answer[0] on acceptance: the microseconds.
pub fn lora_airtime_agreed(
    sf: u8,
    low: u8,
    agreed: usize,
    cr: u8,
    checked: u8,
    len: usize,
    khz: u16,
    preamble: u16,
    answer: &mut [u64],
) -> u8
    ensures { NumberExported (airtime_of (agreed_of sf low agreed cr checked) len khz preamble) answer.old answer.new result }
{
    airtime_into(
        settings(sf, low, agreed, cr, checked),
        len,
        khz,
        preamble,
        answer,
    )
}

// Codes a payload into the lent list of symbols. answer[0] on acceptance: the count.
pub fn lora_code_agreed(
    sf: u8,
    low: u8,
    agreed: usize,
    cr: u8,
    checked: u8,
    payload: &[u8],
    out: &mut [u16],
    answer: &mut [u64],
) -> u8
    ensures { CodeExported (code_of (agreed_of sf low agreed cr checked) payload.now (length out.old)) (agreed_of sf low agreed cr checked) payload.now out.old out.new answer.old answer.new result }
{
    code_into(settings(sf, low, agreed, cr, checked), payload, out, answer)
}

// Reads a frame's payload into the lent bytes, and into the lent list how many bits were repaired in each of its symbols. answer
// on acceptance: length, CR, checksum flag, symbols used, repairs, drift.
pub fn lora_read_agreed(
    sf: u8,
    low: u8,
    agreed: usize,
    cr: u8,
    checked: u8,
    symbols: &[u16],
    out: &mut [u8],
    hurts: &mut [u8],
    answer: &mut [u64],
) -> u8
    ensures { ReadExported (read_of sf (flag_of low) (expected_of agreed cr checked) symbols.now (length out.old) (length hurts.old)) sf (flag_of low) (expected_of agreed cr checked) symbols.now out.old out.new hurts.old hurts.new answer.old answer.new result }
{
    let expected = Expected::Agreed {
        length: agreed,
        cr,
        checked: checked != 0,
    };
    read_into(sf, low != 0, expected, symbols, out, hurts, answer)
}
