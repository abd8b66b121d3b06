// The functions of lora_c for C and Rust: a static library with one export for each, under its name and by C's calling convention.
// What each answers is said in lora_c, whose clauses stand here again.
#![tactic(auto)]

ghost use Rattle.std.specs.Prelude.{length};
ghost use Rattle.lora.specs.Airtime.{airtime_of};
ghost use Rattle.lora.specs.Code.{code_of};
ghost use Rattle.lora.specs.Count.{count_of};
ghost use Rattle.lora.specs.Head.{head_of};
ghost use Rattle.lora.specs.Read.{read_of};
ghost use Rattle.lora.specs.declared.Expected.TheVariants.{Explicit};
ghost use Rattle.lora_c.specs.Export.{flag_of, explicit_of, NumberExported, HeadExported, CodeExported, ReadExported};

mod agreed;
mod day_file;
mod tallies;

// How many symbols a frame has. answer[0] on acceptance: the count.
#[unsafe(no_mangle)]
pub extern "C" fn lora_count(
    sf: u8,
    low: u8,
    cr: u8,
    checked: u8,
    len: usize,
    answer: &mut [u64],
) -> u8
    ensures { NumberExported (count_of (explicit_of sf low cr checked) len) answer.old answer.new result }
{
    lora_c::lora_count(sf, low, cr, checked, len, answer)
}

// A frame's time on air. answer[0] on acceptance: the microseconds.
#[unsafe(no_mangle)]
pub extern "C" fn lora_airtime(
    sf: u8,
    low: u8,
    cr: u8,
    checked: u8,
    len: usize,
    khz: u16,
    preamble: u16,
    answer: &mut [u64],
) -> u8
    ensures { NumberExported (airtime_of (explicit_of sf low cr checked) len khz preamble) answer.old answer.new result }
{
    lora_c::lora_airtime(sf, low, cr, checked, len, khz, preamble, answer)
}

// Codes a payload into the lent list of symbols. answer[0] on acceptance: the count.
#[unsafe(no_mangle)]
pub extern "C" fn lora_code(
    sf: u8,
    low: u8,
    cr: u8,
    checked: u8,
    payload: &[u8],
    out: &mut [u16],
    answer: &mut [u64],
) -> u8
    ensures { CodeExported (code_of (explicit_of sf low cr checked) payload.now (length out.old)) (explicit_of sf low cr checked) payload.now out.old out.new answer.old answer.new result }
{
    lora_c::lora_code(sf, low, cr, checked, payload, out, answer)
}

// What a frame's header says. answer on acceptance: length, CR, checksum flag.
#[unsafe(no_mangle)]
pub extern "C" fn lora_head(sf: u8, symbols: &[u16], answer: &mut [u64]) -> u8
    ensures { HeadExported (head_of sf symbols.now) answer.old answer.new result }
{
    lora_c::lora_head(sf, symbols, answer)
}

// Reads a frame's payload into the lent bytes, and into the lent list how many bits were repaired in each of its symbols. answer
// on acceptance: length, CR, checksum flag, symbols used, repairs, drift.
#[unsafe(no_mangle)]
pub extern "C" fn lora_read(
    sf: u8,
    low: u8,
    symbols: &[u16],
    out: &mut [u8],
    hurts: &mut [u8],
    answer: &mut [u64],
) -> u8
    ensures { ReadExported (read_of sf (flag_of low) Explicit symbols.now (length out.old) (length hurts.old)) sf (flag_of low) Explicit symbols.now out.old out.new hurts.old hurts.new answer.old answer.new result }
{
    lora_c::lora_read(sf, low, symbols, out, hurts, answer)
}
