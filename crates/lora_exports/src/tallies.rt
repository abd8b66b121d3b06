// A tally in the first 16 cells of a lent array.
ghost use Rattle.std.specs.Prelude.{◌&&◌};
ghost use Rattle.tally.specs.Tally.{clear_of, hear_of, take_in_of};
ghost use Rattle.lora_c.specs.TallyExport.{tally_in, outcome_in, is_tally, is_outcome, TallyExported};

// Clears a tally.
#[unsafe(no_mangle)]
pub extern "C" fn lora_tally_clear(cells: &mut [u32]) -> u8
    ensures { TallyExported (is_tally cells.old) (Ok (clear_of (tally_in cells.old))) cells.old cells.new result }
{
    lora_c::tallies::lora_tally_clear(cells)
}

// Hears an outcome: the number that read returned, and the cells of `answer` as read left them.
#[unsafe(no_mangle)]
pub extern "C" fn lora_tally_hear(cells: &mut [u32], number: u8, answer: &[u64]) -> u8
    ensures { TallyExported (is_tally cells.old && is_outcome number answer.now) (hear_of (tally_in cells.old) (outcome_in number answer.now)) cells.old cells.new result }
{
    lora_c::tallies::lora_tally_hear(cells, number, answer)
}

// Takes in another station's tally, which stays as it is.
#[unsafe(no_mangle)]
pub extern "C" fn lora_tally_take_in(cells: &mut [u32], other: &[u32]) -> u8
    ensures { TallyExported (is_tally cells.old && is_tally other.now) (take_in_of (tally_in cells.old) (tally_in other.now)) cells.old cells.new result }
{
    lora_c::tallies::lora_tally_take_in(cells, other)
}
