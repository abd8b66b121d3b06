// One byte of the file, and the test that it has to pass.
ghost use Rattle.std.specs.Prelude.{◌≡◌, ◌<◌, ◌+◌, ◌*◌, false, get_or, length, IfOk};
ghost use Rattle.day.specs.Script.{one};
ghost use Rattle.day.specs.Day.{within as is_within, is_number, count};
ghost use Rattle.day.specs.Stages.{tested, Reads};

use refusal::Refusal;

// The byte at any place, 0 behind the end.
pub fn byte_at(bytes: &[u8], at: usize) -> u8
    ensures { result ≡ get_or bytes.now at 0 }
{
    bytes.get(at).copied().unwrap_or(0)
}

// Whether a number is low or more, and below end.
pub fn within(n: usize, low: usize, end: usize) -> bool
    ensures { result ≡ is_within low end n }
{
    (low..end).contains(&n)
}

// Whether frames are refused with this number: 4 to 7 or 9 to 12.
pub fn is_number(n: usize) -> bool
    ensures { result ≡ is_number n }
{
    within(n, 4, 8) || within(n, 9, 13)
}

// The byte at a place, if it is there and is fine; else 15 or 16 at its place.
fn tested(bytes: &[u8], at: usize, fine: bool) -> Result<u8, Refusal>
    ensures { result ≡ tested fine bytes.now at }
{
    let Some(b) = bytes.get(at) else {
        return Err(Refusal {
            number: refusal::FILE_LENGTH,
            place: at,
        });
    };
    if !fine {
        return Err(Refusal {
            number: refusal::FILE_FIELD,
            place: at,
        });
    }
    Ok(*b)
}

// The byte at a place, if it is there and within its range.
pub fn field(bytes: &[u8], at: usize, low: usize, end: usize) -> Result<u8, Refusal>
    ensures value { Reads (one (is_within low end)) bytes.now at (at + 1) result }
    ensures there { IfOk result (λ b. at < length bytes.now) }
{
    tested(bytes, at, within(usize::from(byte_at(bytes, at)), low, end))
}

// The byte at a place, if it is there and a refused frame's number.
pub fn number_at(bytes: &[u8], at: usize) -> Result<u8, Refusal>
    ensures value { Reads (one is_number) bytes.now at (at + 1) result }
    ensures there { IfOk result (λ b. at < length bytes.now) }
{
    tested(bytes, at, is_number(usize::from(byte_at(bytes, at))))
}

// A count.
pub fn count_at(bytes: &[u8], at: usize) -> Result<usize, Refusal>
    ensures value { Reads (count false 255) bytes.now at (at + 1) result }
    ensures there { IfOk result (λ n. at < length bytes.now) }
{
    let count = field(bytes, at, 0, 256)?;
    Ok(usize::from(count))
}
