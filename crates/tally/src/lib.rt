// A tally of what read answered. Hearing an outcome is adding the tally of that one outcome, taking in is adding another
// station's: one adder, one check of 17.
#![tactic(auto)]

ghost use Rattle.std.specs.Prelude.{true, if◌then◌else◌, ◌≡◌, leb};
ghost use Rattle.bits.specs.Search.{first};
ghost use Rattle.bits.specs.Sum.{sum};
ghost use Rattle.bits.specs.Tab.{tab};
ghost use Rattle.tally.specs.Tally.{read_gives, known, empty, one, sum_at, plus, passes, fits, clear_of, hear_of, take_in_of, Leaves};

use lora::Received;
use refusal::Refusal;

// Frames heard, accepted with no repairs, accepted with some, and refused under each number, which is the index: read gives
// 1 to 7 and 9 to 12, so cells 0 and 8 stay 0 after a clearing.
#[derive(Clone, Copy)]
pub struct Tally {
    pub heard: u32,
    pub clean: u32,
    pub repaired: u32,
    pub refused: [u32; 13],
}

// A tally with nothing in it.
pub fn none() -> Tally
    ensures { result ≡ empty }
{
    Tally {
        heard: 0,
        clean: 0,
        repaired: 0,
        refused: [0u32; 13],
    }
}

#[tactic(auto, unfolding(crate::specs::Tally::read_gives))]
fn read_gives(number: u8) -> bool
    ensures { result ≡ read_gives number }
{
    matches!(number, 1..=7 | 9..=12)
}

fn is_known(o: Received) -> bool
    ensures { result ≡ known o }
{
    match o {
        Ok(_) => true,
        Err(r) => read_gives(r.number),
    }
}

// The tally of one outcome.
fn single(o: Received) -> Tally
    requires { known o ≡ true }
    ensures { result ≡ one o }
{
    let mut t = Tally { heard: 1, ..none() };
    match o {
        Ok(a) if a.repairs == 0 => t.clean = 1,
        Ok(_) => t.repaired = 1,
        Err(r) => t.refused[usize::from(r.number)] = 1,
    }
    t
}

// Two lists of refusals in one, unless a sum passes 32 bits.
fn sums(a: [u32; 13], b: [u32; 13]) -> Option<[u32; 13]>
    ensures { result ≡ (if leb 13 (first (passes (sum_at a b)) 13 0) then Some (tab 13 (sum_at a b)) else None) }
{
    let mut c = a;
    for (i, n) in b.iter().enumerate() {
        c[i] = c[i].checked_add(*n)?;
    }
    Some(c)
}

// Two tallies in one, unless a sum passes 32 bits.
fn plus(t: Tally, s: Tally) -> Option<Tally>
    ensures { result ≡ (if fits t s then Some (plus t s) else None) }
{
    Some(Tally {
        heard: t.heard.checked_add(s.heard)?,
        clean: t.clean.checked_add(s.clean)?,
        repaired: t.repaired.checked_add(s.repaired)?,
        refused: sums(t.refused, s.refused)?,
    })
}

// The two calls by value: hearing an outcome of read, taking in another station's tally.
#[tactic(auto, unfolding(crate::specs::Tally::hear_of))]
pub fn hearing(t: Tally, o: Received) -> Result<Tally, Refusal>
    ensures { result ≡ hear_of t o }
{
    if !is_known(o) {
        return Err(Refusal {
            number: refusal::NO_OUTCOME,
            place: 0,
        });
    }
    taking(t, single(o))
}

pub fn taking(t: Tally, s: Tally) -> Result<Tally, Refusal>
    ensures { result ≡ take_in_of t s }
{
    plus(t, s).ok_or(Refusal {
        number: refusal::TALLY_FULL,
        place: 0,
    })
}

// The same on a tally that is lent, which a refusal leaves as it was; and clearing it.
#[tactic(auto, unfolding(crate::specs::Tally::clear_of))]
pub fn clear(t: &mut Tally)
    ensures { t.new ≡ clear_of t.old }
{
    *t = none();
}

pub fn hear(t: &mut Tally, o: Received) -> Result<(), Refusal>
    ensures { Leaves (hear_of t.old o) t.old t.new result }
{
    *t = hearing(*t, o)?;
    Ok(())
}

pub fn take_in(t: &mut Tally, s: Tally) -> Result<(), Refusal>
    ensures { Leaves (take_in_of t.old s) t.old t.new result }
{
    *t = taking(*t, s)?;
    Ok(())
}

// All that were refused, under whatever number.
pub fn refused_in_all(t: Tally) -> u64
    ensures { result ≡ sum t.refused }
{
    t.refused.iter().map(|n| u64::from(*n)).sum()
}
