// The operation head, in steps that read takes too, so that block 0 is read once.
ghost use Rattle.std.specs.Prelude.{◌≡◌, ◌≤◌, leb, length, Ok};
ghost use Rattle.lora.specs.Head.{first_over, head_of};
ghost use Rattle.lora.specs.Stages.{FirstOver, Entered, Opening};

use header::Header;
use reading::{NIBBLES, Tables};
use refusal::Refusal;

// Whether none of these symbols is 2^SF or more. It looks at all of them, so that the compiler can compare eight at a time, where
// `all` would stop at the first.
fn none_over(sf: u8, symbols: &[u16]) -> bool
    requires { sf ≤ 12 }
    ensures { result ≡ leb (length symbols.now) (first_over sf symbols.now (length symbols.now) 0) }
{
    let m = bits::power(usize::from(sf));
    let mut none = true;
    for x in symbols {
        if m <= *x {
            none = false;
        }
    }
    none
}

// The first of these symbols that is 2^SF or more.
pub fn first_over(sf: u8, symbols: &[u16]) -> Option<usize>
    requires { sf ≤ 12 }
    ensures { FirstOver sf symbols.now (length symbols.now) result }
{
    if none_over(sf, symbols) {
        return None;
    }
    let m = bits::power(usize::from(sf));
    symbols.iter().position(|x| m <= *x)
}

// Head's checks before the header: 1; 5 for eight symbols; 6 among those.
#[tactic(auto, unfolding(crate::specs::Head::head_of))]
pub fn enter(sf: u8, symbols: &[u16]) -> Result<(), Refusal>
    ensures { Entered result sf symbols.now }
{
    if !layout::valid_sf(sf) {
        return Err(Refusal {
            number: refusal::BAD_SF,
            place: 0,
        });
    }
    if symbols.len() < 8 {
        return Err(Refusal {
            number: refusal::FEW_SYMBOLS,
            place: 8,
        });
    }
    if let Some(place) = first_over(sf, &symbols[..8]) {
        return Err(Refusal {
            number: refusal::SYMBOL_OVER,
            place,
        });
    }
    Ok(())
}

// The front of a frame: the grid of block 0, and among the header's codewords in it the repairs and how often each bit was flipped.
#[derive(Clone, Copy, Debug, PartialEq, Eq)]
pub struct Front {
    pub grid: [[bool; 8]; 12],
    pub repairs: usize,
    pub flips: u64,
}

// A frame's front, and what the header in it says.
#[derive(Clone, Copy, Debug, PartialEq, Eq)]
pub struct Opened {
    pub header: Header,
    pub front: Front,
}

// Reads the header's codewords in block 0, after the checks before it.
pub fn header_of(tables: &Tables, sf: u8, symbols: &[u16]) -> Result<Opened, Refusal>
    requires { Entered (Ok tt) sf symbols.now }
    ensures { Opening sf symbols.now result }
{
    let grid = reading::first_grid(sf, symbols);
    let mut nibbles = [0u8; NIBBLES];
    let rows = reading::read_rows(tables, 4, &grid, 0, 5, 0, 0, &mut nibbles);
    let end = rows.end;
    if end < 5 {
        return Err(Refusal {
            number: refusal::UNREADABLE,
            place: end,
        });
    }
    let header = header::judge([nibbles[0], nibbles[1], nibbles[2], nibbles[3], nibbles[4]])?;
    let front = Front {
        grid,
        repairs: rows.repairs,
        flips: rows.flips,
    };
    Ok(Opened { header, front })
}

// What a frame's header says, from its first eight symbols.
pub fn head(sf: u8, symbols: &[u16]) -> Result<Header, Refusal>
    ensures { result ≡ head_of sf symbols.now }
{
    enter(sf, symbols)?;
    let opened = header_of(&Tables::new(), sf, symbols)?;
    Ok(opened.header)
}
