// How far a symbol at the four-wide spacing is off its mark.
#![tactic(auto)]

ghost use Rattle.std.specs.Prelude.{◌≡◌, ◌+◌, ◌^◌, ◌≤◌, ◌<◌, pos, ◌-ℤ◌};
ghost use Rattle.drift.specs.Drift.{mark_of, drift_of};

// a less b, of two numbers near each other.
fn difference(a: u16, b: u16) -> i8
    requires { (a ≤ b + 1) × (b ≤ a + 2) × (a < 32768) × (b < 32768) }
    ensures { result ≡ pos a -ℤ pos b }
{
    (a as i16 - b as i16) as i8
}

#[tactic(auto, unfolding(crate::specs::Drift::mark_of))]
fn mark_of_number(sf: u8, s: u16) -> u16
    requires { (7 ≤ sf) × (sf ≤ 12) }
    ensures { result ≡ mark_of sf s }
{
    let n = usize::from(sf) - 2;
    block::number_of_value(true, block::value_of_number(n, true, s))
}

// A number is at most one above its mark, but for the last two below 2^SF: their mark is 0, one time round.
pub fn drift_of_number(sf: u8, s: u16) -> i8
    requires { (7 ≤ sf) × (sf ≤ 12) × (s < 2 ^ sf) }
    ensures { result ≡ drift_of sf s }
{
    let mark = mark_of_number(sf, s);
    if s > mark + 1 {
        let round = bits::power(usize::from(sf));
        return difference(s, mark + round);
    }
    difference(s, mark)
}
