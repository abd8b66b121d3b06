// The five operations for C and Rust, of frames with a header; those of frames without one are in `agreed`, the day's file in
// `day_file`, the tally in `tallies`. A flag is 0 for off, any other number for on. Each returns 0 for an acceptance, a refusal's
// number with its place in answer[0], or 255 where `answer` has too few cells, and then nothing is written.
// The parameters stand one by one, flags as bytes and answers as a number and cells, because C's interface has them so
// (include/lora.h).
#![tactic(auto)]

ghost use Rattle.std.specs.Prelude.{List, [], ◌∷◌, ◌≡◌, ℕ, ◌≤◌, length};
ghost use Rattle.lora.specs.Airtime.{airtime_of};
ghost use Rattle.lora.specs.Code.{code_of};
ghost use Rattle.lora.specs.Count.{count_of};
ghost use Rattle.lora.specs.Head.{head_of};
ghost use Rattle.lora.specs.Read.{read_of};
ghost use Rattle.lora.specs.declared.Expected.TheVariants.{Explicit};
ghost use Rattle.lora_c.specs.Export.{flag_of, explicit_of, number_of, cells_of, cells_of_number, cells_of_header, cells_of_accepted, front, Exported, NumberExported, HeadExported, CodeExported, ReadExported};

pub mod agreed;
pub mod day_file;
pub mod tallies;

use header::Header;
use lora::{Accepted, Expected, Kind, Settings};
use refusal::Refusal;

// Returned where `answer` has too few cells; no refusal has this number.
const ANSWER_SHORT: u8 = 255;

// Settings with a header, both flags as numbers.
fn explicit(sf: u8, low: u8, cr: u8, checked: u8) -> Settings
    ensures { result ≡ explicit_of sf low cr checked }
{
    Settings {
        sf,
        low: low != 0,
        kind: Kind::Explicit {
            cr,
            checked: checked != 0,
        },
    }
}

// Writes the first cells of `answer`.
#[tactic(auto, unfolding(crate::specs::Export::front))]
fn put(answer: &mut [u64], cells: &[u64])
    requires { length cells.now ≤ length answer.old }
    ensures { answer.new ≡ front cells.now answer.old }
{
    answer[..cells.len()].copy_from_slice(cells);
}

// A refusal as its number, and its place in the first cell.
fn refuse(answer: &mut [u64], r: Refusal) -> u8
    requires { 1 ≤ length answer.old }
    ensures { (result ≡ r.number) × (answer.new ≡ front (r.place ∷ []) answer.old) }
{
    put(answer, &[r.place as u64]);
    r.number
}

// What an acceptance says, as the cells of `answer`.
trait Cells<const N: usize>: Drop {
    ghost cells: { Self → List ℕ };

    fn cells(self) -> [u64; N]
        ensures { result ≡ cells self };
}

impl Cells<1> for usize {
    ghost cells = { cells_of_number };

    fn cells(self) -> [u64; 1] {
        [self as u64]
    }
}

impl Cells<1> for u64 {
    ghost cells = { cells_of_number };

    fn cells(self) -> [u64; 1] {
        [self]
    }
}

impl Cells<3> for Header {
    ghost cells = { cells_of_header };

    fn cells(self) -> [u64; 3] {
        [
            self.length as u64,
            u64::from(self.cr),
            u64::from(self.checked),
        ]
    }
}

// A negative drift is 2^64 less its size, as C and Rust turn it back.
impl Cells<6> for Accepted {
    ghost cells = { cells_of_accepted };

    fn cells(self) -> [u64; 6] {
        [
            self.length as u64,
            u64::from(self.cr),
            u64::from(self.checked),
            self.symbols as u64,
            self.repairs as u64,
            i64::from(self.drift).cast_unsigned(),
        ]
    }
}

// What an operation said as a number and cells: so many are needed as an acceptance has.
fn tell<const N: usize, T: Cells<N>>(said: Result<T, Refusal>, answer: &mut [u64]) -> u8
    requires { 1 ≤ N }
    ensures { Exported N (number_of said) (cells_of T.cells said) answer.old answer.new result }
{
    if answer.len() < N {
        return ANSWER_SHORT;
    }
    match said {
        Ok(a) => {
            put(answer, &a.cells());
            0
        }
        Err(r) => refuse(answer, r),
    }
}

// Count's answer as a number and one cell.
fn count_into(s: Settings, len: usize, answer: &mut [u64]) -> u8
    ensures { NumberExported (count_of s len) answer.old answer.new result }
{
    if answer.is_empty() {
        return ANSWER_SHORT;
    }
    tell(lora::count(s, len), answer)
}

// Airtime's answer as a number and one cell. Inlined by hand: as one function of both exports it would take a third longer, since
// neither would know its kind of frame.
#[inline(always)]
fn airtime_into(s: Settings, len: usize, khz: u16, preamble: u16, answer: &mut [u64]) -> u8
    ensures { NumberExported (airtime_of s len khz preamble) answer.old answer.new result }
{
    if answer.is_empty() {
        return ANSWER_SHORT;
    }
    tell(lora::airtime(s, len, khz, preamble), answer)
}

// Code's answer as a number and one cell.
fn code_into(s: Settings, payload: &[u8], out: &mut [u16], answer: &mut [u64]) -> u8
    ensures { CodeExported (code_of s payload.now (length out.old)) s payload.now out.old out.new answer.old answer.new result }
{
    if answer.is_empty() {
        return ANSWER_SHORT;
    }
    tell(lora::code(s, payload, out), answer)
}

// Read's answer as a number and six cells.
fn read_into(
    sf: u8,
    low: bool,
    expected: Expected,
    symbols: &[u16],
    out: &mut [u8],
    hurts: &mut [u8],
    answer: &mut [u64],
) -> u8
    ensures { ReadExported (read_of sf low expected symbols.now (length out.old) (length hurts.old)) sf low expected symbols.now out.old out.new hurts.old hurts.new answer.old answer.new result }
{
    if answer.len() < 6 {
        return ANSWER_SHORT;
    }
    let received = lora::read(sf, low, expected, symbols, out, hurts);
    tell(received, answer)
}

// How many symbols a frame has. answer[0] on acceptance: the count.
pub fn lora_count(sf: u8, low: u8, cr: u8, checked: u8, len: usize, answer: &mut [u64]) -> u8
    ensures { NumberExported (count_of (explicit_of sf low cr checked) len) answer.old answer.new result }
{
    count_into(explicit(sf, low, cr, checked), len, answer)
}

// A frame's time on air. answer[0] on acceptance: the microseconds.
pub fn lora_airtime(
    sf: u8,
    low: u8,
    cr: u8,
    checked: u8,
    len: usize,
    khz: u16,
    preamble: u16,
    answer: &mut [u64],
) -> u8
    ensures { NumberExported (airtime_of (explicit_of sf low cr checked) len khz preamble) answer.old answer.new result }
{
    airtime_into(explicit(sf, low, cr, checked), len, khz, preamble, answer)
}

// Codes a payload into the lent list of symbols. answer[0] on acceptance: the count.
pub fn lora_code(
    sf: u8,
    low: u8,
    cr: u8,
    checked: u8,
    payload: &[u8],
    out: &mut [u16],
    answer: &mut [u64],
) -> u8
    ensures { CodeExported (code_of (explicit_of sf low cr checked) payload.now (length out.old)) (explicit_of sf low cr checked) payload.now out.old out.new answer.old answer.new result }
{
    code_into(explicit(sf, low, cr, checked), payload, out, answer)
}

// What a frame's header says. answer on acceptance: length, CR, checksum flag.
pub fn lora_head(sf: u8, symbols: &[u16], answer: &mut [u64]) -> u8
    ensures { HeadExported (head_of sf symbols.now) answer.old answer.new result }
{
    if answer.len() < 3 {
        return ANSWER_SHORT;
    }
    tell(lora::head(sf, symbols), answer)
}

// Reads a frame's payload into the lent bytes, and into the lent list how many bits were repaired in each of its symbols. answer
// on acceptance: length, CR, checksum flag, symbols used, repairs, drift.
pub fn lora_read(
    sf: u8,
    low: u8,
    symbols: &[u16],
    out: &mut [u8],
    hurts: &mut [u8],
    answer: &mut [u64],
) -> u8
    ensures { ReadExported (read_of sf (flag_of low) Explicit symbols.now (length out.old) (length hurts.old)) sf (flag_of low) Explicit symbols.now out.old out.new hurts.old hurts.new answer.old answer.new result }
{
    read_into(
        sf,
        low != 0,
        Expected::Explicit,
        symbols,
        out,
        hurts,
        answer,
    )
}
