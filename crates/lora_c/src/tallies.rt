// A tally for C and Rust, in the first 16 cells of a lent array: heard, accepted clean, accepted repaired, and refused under the
// numbers 0 to 12. Each call returns 0; or a refusal's number, whose place is 0; or 255 where a list has too few cells. Unless it
// returns 0, nothing is written.
ghost use Rattle.std.specs.Prelude.{true, ◌&&◌, ◌≡◌, ◌≤◌, length};
ghost use Rattle.bits.specs.Tab.{over};
ghost use Rattle.tally.specs.Tally.{clear_of, hear_of, take_in_of};
ghost use Rattle.lora_c.specs.Export.{number_of};
ghost use Rattle.lora_c.specs.TallyExport.{cell_of, tally_in, outcome_in, is_tally, is_outcome, cells_after, TallyExported};

use crate::ANSWER_SHORT;
use lora::{Accepted, Received};
use refusal::Refusal;
use tally::Tally;

// The cells of a tally.
const CELLS: usize = 16;

fn put_tally(t: Tally, cells: &mut [u32])
    requires { 16 ≤ length cells.old }
    ensures { cells.new ≡ over 16 (cell_of t) cells.old }
{
    cells[..3].copy_from_slice(&[t.heard, t.clean, t.repaired]);
    cells[3..CELLS].copy_from_slice(&t.refused);
}

fn tally_in(cells: &[u32]) -> Tally
    requires { 16 ≤ length cells.now }
    ensures { result ≡ tally_in cells.now }
{
    let mut refused = [0u32; 13];
    refused.copy_from_slice(&cells[3..CELLS]);
    Tally {
        heard: cells[0],
        clean: cells[1],
        repaired: cells[2],
        refused,
    }
}

// Whether the cells that are looked at are there.
#[tactic(auto, unfolding(crate::specs::TallyExport::is_outcome))]
fn is_outcome(number: u8, answer: &[u64]) -> bool
    ensures { result ≡ is_outcome number answer.now }
{
    number != 0 || 6 <= answer.len()
}

// The outcome of which read returned the number and left the cells, as a tally looks at it: by its number or its repairs.
#[tactic(auto, unfolding(crate::specs::TallyExport::is_outcome, crate::specs::TallyExport::outcome_in))]
fn outcome_in(number: u8, answer: &[u64]) -> Received
    requires { is_outcome number answer.now ≡ true }
    ensures { result ≡ outcome_in number answer.now }
{
    if number != 0 {
        return Err(Refusal { number, place: 0 });
    }
    Ok(Accepted {
        length: 0,
        cr: 0,
        checked: false,
        symbols: 0,
        repairs: answer[4] as usize,
        drift: 0,
    })
}

// What a call said, as a number and the cells.
fn note(said: Result<Tally, Refusal>, cells: &mut [u32]) -> u8
    requires { 16 ≤ length cells.old }
    ensures { (result ≡ number_of said) × (cells.new ≡ cells_after said cells.old) }
{
    match said {
        Ok(t) => {
            put_tally(t, cells);
            0
        }
        Err(r) => r.number,
    }
}

// Clears a tally.
pub fn lora_tally_clear(cells: &mut [u32]) -> u8
    ensures { TallyExported (is_tally cells.old) (Ok (clear_of (tally_in cells.old))) cells.old cells.new result }
{
    if cells.len() < CELLS {
        return ANSWER_SHORT;
    }
    put_tally(tally::none(), cells);
    0
}

// Hears an outcome: the number that read returned, and the cells of `answer` as read left them.
pub fn lora_tally_hear(cells: &mut [u32], number: u8, answer: &[u64]) -> u8
    ensures { TallyExported (is_tally cells.old && is_outcome number answer.now) (hear_of (tally_in cells.old) (outcome_in number answer.now)) cells.old cells.new result }
{
    if cells.len() < CELLS {
        return ANSWER_SHORT;
    }
    if !is_outcome(number, answer) {
        return ANSWER_SHORT;
    }
    note(
        tally::hearing(tally_in(cells), outcome_in(number, answer)),
        cells,
    )
}

// Takes in another station's tally, which stays as it is.
pub fn lora_tally_take_in(cells: &mut [u32], other: &[u32]) -> u8
    ensures { TallyExported (is_tally cells.old && is_tally other.now) (take_in_of (tally_in cells.old) (tally_in other.now)) cells.old cells.new result }
{
    if cells.len() < CELLS {
        return ANSWER_SHORT;
    }
    if other.len() < CELLS {
        return ANSWER_SHORT;
    }
    note(tally::taking(tally_in(cells), tally_in(other)), cells)
}
