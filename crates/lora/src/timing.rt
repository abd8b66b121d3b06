// The operation airtime.
ghost use Rattle.std.specs.Prelude.{◌≡◌, ◌≤◌, ◌<◌};
ghost use Rattle.lora.specs.Airtime.{valid_bandwidth, microseconds, airtime_of};

use crate::{Settings, counting};
use refusal::Refusal;

#[tactic(auto, unfolding(crate::specs::Airtime::valid_bandwidth))]
fn valid_bandwidth(khz: u16) -> bool
    ensures { result ≡ valid_bandwidth khz }
{
    matches!(khz, 125 | 250 | 500)
}

fn microseconds(sf: u8, preamble: u16, symbols: usize, khz: u16) -> u64
    requires { (sf ≤ 12) × (symbols ≤ 832) × (0 < khz) }
    ensures { result ≡ microseconds sf preamble symbols khz }
{
    // `as`, since no From leads from usize to u64.
    let quarters = (4 * (usize::from(preamble) + symbols) + 17) as u64;
    quarters * u64::from(bits::power(usize::from(sf))) * 250 / u64::from(khz)
}

// The time on air of such a frame, in microseconds.
#[tactic(auto, unfolding(crate::specs::Airtime::airtime_of))]
pub fn airtime(s: Settings, length: usize, khz: u16, preamble: u16) -> Result<u64, Refusal>
    ensures { result ≡ airtime_of s length khz preamble }
{
    let count = counting::count(s, length)?;
    if !valid_bandwidth(khz) {
        return Err(Refusal {
            number: refusal::BAD_BANDWIDTH,
            place: 0,
        });
    }
    Ok(microseconds(s.sf, preamble, count, khz))
}
