// The operation read.
ghost use Rattle.std.specs.Prelude.{◌≡◌, ℕ, ◌≤◌, ◌<◌, length, get_or};
ghost use Rattle.lora.specs.Read.{body_of, Reading};
ghost use Rattle.lora.specs.Stages.{sum_agrees, Headed, data_of, Admitted, Decodable, Decoded, Bodied};
ghost use Rattle.lora.specs.declared.Expected.TheVariants.{Explicit};

use crate::opening::Front;
use crate::shape::Shape;
use crate::{Accepted, Expected, Kind, Received, Settings, counting, opening};
use layout::{LONGEST, MOST_SYMBOLS};
use reading::{NIBBLES, Tables};
use refusal::Refusal;

// Whether the payload's checksum is the one that was sent, where there is one.
#[tactic(auto, unfolding(crate::specs::Stages::sum_agrees))]
fn sum_holds(shape: Shape, payload: [u8; LONGEST], nibbles: &[u8; NIBBLES]) -> bool
    requires { (i : ℕ) → get_or nibbles.now i 0 < 16 }
    ensures { result ≡ sum_agrees shape.frame shape.len payload nibbles.now }
{
    let f = shape.frame;
    let len = shape.len;
    if f.checked {
        checksum::checksum(&payload[..len]) == reading::checksum_of_nibbles(nibbles, f.header, len)
    } else {
        true
    }
}

// The payload as it is read, with what is said of it.
#[derive(Clone, Copy)]
struct Body {
    payload: [u8; LONGEST],
    accepted: Accepted,
}

// Reads the data codewords of the frame, which is there whole and in range, behind its front, and marks the frame's symbols.
fn decode(
    tables: &Tables,
    shape: Shape,
    front: &Front,
    symbols: &[u16],
    marks: &mut [u8; MOST_SYMBOLS],
) -> Result<Body, Refusal>
    requires { Decodable shape symbols.now front.now × (length marks.old ≡ 832) }
    ensures { Decoded shape.frame symbols.now shape.len marks.new result }
{
    let f = shape.frame;
    let len = shape.len;
    let header = f.header;
    let n = layout::nibbles_of(f, len);
    let mut nibbles = [0u8; NIBBLES];
    let progress = reading::read_data(
        tables,
        f,
        &front.grid,
        front.flips,
        symbols,
        n - header,
        &mut nibbles,
        marks,
    );
    let end = header + progress.end;
    if end < n {
        return Err(Refusal {
            number: refusal::UNREADABLE,
            place: end,
        });
    }
    let payload = reading::payload_of_nibbles(&nibbles, header, len);
    if !sum_holds(shape, payload, &nibbles) {
        return Err(Refusal {
            number: refusal::CHECKSUM,
            place: 0,
        });
    }
    let accepted = Accepted {
        length: len,
        cr: f.cr,
        checked: f.checked,
        symbols: shape.total,
        repairs: front.repairs + progress.repairs,
        drift: drift::drift_of_number(f.sf, symbols[0]),
    };
    Ok(Body { payload, accepted })
}

// Reads the data of a frame that is there whole, and hands payload and marks out only where all is well.
fn deliver(
    tables: &Tables,
    shape: Shape,
    front: &Front,
    symbols: &[u16],
    out: &mut [u8],
    hurts: &mut [u8],
) -> Received
    requires { Decodable shape symbols.now front.now × (shape.len ≤ length out.old) × (shape.total ≤ length hurts.old) }
    ensures { Bodied (data_of shape.frame symbols.now shape.len) shape.frame symbols.now shape.len out.old out.new hurts.old hurts.new result }
{
    let len = shape.len;
    let total = shape.total;
    let mut marks = [0u8; MOST_SYMBOLS];
    let body = decode(tables, shape, front, symbols, &mut marks)?;
    out[..len].copy_from_slice(&body.payload[..len]);
    hurts[..total].copy_from_slice(&marks[..total]);
    Ok(body.accepted)
}

// The checks of a frame from 4 to 6, with so many cells lent for its payload and for its marks.
fn admit(shape: Shape, symbols: &[u16], room: usize, marks: usize) -> Result<(), Refusal>
    ensures { Admitted result shape.frame symbols.now room marks shape.len }
{
    let len = shape.len;
    let total = shape.total;
    if room < len {
        return Err(Refusal {
            number: refusal::OUT_SHORT,
            place: len,
        });
    }
    if marks < total {
        return Err(Refusal {
            number: refusal::OUT_SHORT,
            place: total,
        });
    }
    if symbols.len() < total {
        return Err(Refusal {
            number: refusal::FEW_SYMBOLS,
            place: total,
        });
    }
    if let Some(place) = opening::first_over(shape.frame.sf, &symbols[..total]) {
        return Err(Refusal {
            number: refusal::SYMBOL_OVER,
            place,
        });
    }
    Ok(())
}

// Reads the frame behind its front.
fn read_body(
    tables: &Tables,
    shape: Shape,
    front: &Front,
    symbols: &[u16],
    out: &mut [u8],
    hurts: &mut [u8],
) -> Received
    requires { Headed shape.frame symbols.now front.now }
    ensures { Bodied (body_of shape.frame symbols.now (length out.old) (length hurts.old) shape.len) shape.frame symbols.now shape.len out.old out.new hurts.old hurts.new result }
{
    admit(shape, symbols, out.len(), hurts.len())?;
    deliver(tables, shape, front, symbols, out, hurts)
}

// Reads a frame by what its header says.
#[tactic(auto, unfolding(crate::specs::Read::read_of))]
fn read_explicit(sf: u8, low: bool, symbols: &[u16], out: &mut [u8], hurts: &mut [u8]) -> Received
    ensures { Reading sf low Explicit symbols.now out.old out.new hurts.old hurts.new result }
{
    opening::enter(sf, symbols)?;
    let tables = Tables::new();
    let opened = opening::header_of(&tables, sf, symbols)?;
    let h = opened.header;
    let kind = Kind::Explicit {
        cr: h.cr,
        checked: h.checked,
    };
    let frame = counting::frame_of(Settings { sf, low, kind });
    let shape = Shape {
        frame,
        len: h.length,
        total: layout::symbols_of(frame, h.length),
    };
    read_body(&tables, shape, &opened.front, symbols, out, hurts)
}

// Reads a frame that has no header: block 0 is looked at only when the whole frame is known to be there.
fn read_bare(shape: Shape, symbols: &[u16], out: &mut [u8], hurts: &mut [u8]) -> Received
    requires { shape.frame.header ≡ 0 }
    ensures { Bodied (body_of shape.frame symbols.now (length out.old) (length hurts.old) shape.len) shape.frame symbols.now shape.len out.old out.new hurts.old hurts.new result }
{
    admit(shape, symbols, out.len(), hurts.len())?;
    let front = Front {
        grid: reading::first_grid(shape.frame.sf, symbols),
        repairs: 0,
        flips: 0,
    };
    deliver(&Tables::new(), shape, &front, symbols, out, hurts)
}

// Reads a frame's payload into the lent buffer, and into the lent list how many bits were repaired in each of its symbols.
#[tactic(auto, unfolding(crate::specs::Read::read_of))]
pub fn read(
    sf: u8,
    low: bool,
    expected: Expected,
    symbols: &[u16],
    out: &mut [u8],
    hurts: &mut [u8],
) -> Received
    ensures { Reading sf low expected symbols.now out.old out.new hurts.old hurts.new result }
{
    match expected {
        Expected::Explicit => read_explicit(sf, low, symbols, out, hurts),
        Expected::Agreed {
            length,
            cr,
            checked,
        } => {
            let kind = Kind::Agreed {
                length,
                cr,
                checked,
            };
            let shape = counting::shape_of(Settings { sf, low, kind }, length)?;
            read_bare(shape, symbols, out, hurts)
        }
    }
}
