// The day's file.
ghost use Rattle.std.specs.Prelude.{length};
ghost use Rattle.day.specs.Day.{kind1, file_of, judged};
ghost use Rattle.day.specs.Stages.{verdict};
ghost use Rattle.day.specs.Walk.{shown};
ghost use Rattle.day_write.specs.Write.{entries_of, write_of};
ghost use Rattle.lora_c.specs.DayExport.{WriteExported, CheckExported, StepExported};

// Writes the file of a day's entries into the lent bytes. answer[0] on acceptance: the file's length.
#[unsafe(no_mangle)]
pub extern "C" fn lora_day_write(
    settings: &[u8],
    frames: &[u16],
    payloads: &[u8],
    refused: &[u16],
    out: &mut [u8],
    answer: &mut [u64],
) -> u8
    ensures { WriteExported (write_of kind1 settings.now frames.now payloads.now refused.now (length out.old)) (file_of kind1 (entries_of settings.now frames.now payloads.now refused.now)) out.old out.new answer.old answer.new result }
{
    lora_c::day_file::lora_day_write(settings, frames, payloads, refused, out, answer)
}

// Checks a day's file. answer on acceptance: settings, frames, refused frames.
#[unsafe(no_mangle)]
pub extern "C" fn lora_day_check(file: &[u8], answer: &mut [u64]) -> u8
    ensures { CheckExported (verdict (judged kind1 file.now)) answer.old answer.new result }
{
    lora_c::day_file::lora_day_check(file, answer)
}

// The entry at a place of a day's file. answer on acceptance: what stands there, the place behind it, and its fields.
#[unsafe(no_mangle)]
pub extern "C" fn lora_day_step(
    file: &[u8],
    at: usize,
    section: u8,
    left: usize,
    settings: usize,
    answer: &mut [u64],
) -> u8
    ensures { StepExported (shown kind1 file.now (record { at = at; section = section; left = left; settings = settings })) answer.old answer.new result }
{
    lora_c::day_file::lora_day_step(file, at, section, left, settings, answer)
}
