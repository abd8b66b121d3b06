// The day's file, written into a lent buffer from rows of numbers.
#![tactic(auto)]

ghost use Rattle.std.specs.Prelude.{ℕ, ◌<◌, get_or};
ghost use Rattle.bits.specs.Tab.{Bytes};
ghost use Rattle.day.specs.Day.{kind1};
ghost use Rattle.day_write.specs.Write.{Writing};

mod judging;
mod putting;

use refusal::Refusal;

// The rows of a day's entries, and the payloads one behind the other. What the types of their numbers say is kept as facts.
#[derive(Clone, Copy)]
struct Rows<'a> {
    settings: &'a [u8],
    frames: &'a [u16],
    payloads: &'a [u8],
    refused: &'a [u16],
    ghost cells: { (i : ℕ) → get_or frames.now i 0 < 65536 },
    ghost bytes: { Bytes payloads.now },
}

// Writes the file of the day's entries. A setting is a row of two numbers (SF, flag), a frame one of five (settings index, CR,
// flag, repairs, length), a refused frame one of three (settings index, number, place); the payloads stand one behind the other.
// Answers the file's length; of a refusal the buffer stays as it was.
pub fn write(
    settings: &[u8],
    frames: &[u16],
    payloads: &[u8],
    refused: &[u16],
    out: &mut [u8],
) -> Result<usize, Refusal>
    ensures { Writing kind1 settings.now frames.now payloads.now refused.now out.old out.new result }
{
    let rows = Rows {
        settings,
        frames,
        payloads,
        refused,
    };
    if !judging::good(rows) {
        return Err(Refusal {
            number: refusal::FILE_FIELD,
            place: 0,
        });
    }
    let bytes = putting::file_length(rows);
    if out.len() < bytes {
        return Err(Refusal {
            number: refusal::OUT_SHORT,
            place: bytes,
        });
    }
    putting::put_file(rows, out);
    Ok(bytes)
}
