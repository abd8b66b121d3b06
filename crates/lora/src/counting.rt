// The operation count.
ghost use Rattle.std.specs.Prelude.{◌≡◌};
ghost use Rattle.lora.specs.Count.{frame_of, takes, count_of};
ghost use Rattle.lora.specs.Stages.{Shaped};

use crate::shape::Shape;
use crate::{Kind, Settings};
use layout::Frame;
use refusal::Refusal;

// The nibbles of an explicit header.
const HEADER: usize = 5;

// A frame with these settings.
pub fn frame_of(s: Settings) -> Frame
    ensures { result ≡ frame_of s }
{
    let sf = s.sf;
    let low = s.low;
    match s.kind {
        Kind::Explicit { cr, checked } => Frame {
            sf,
            low,
            cr,
            checked,
            header: HEADER,
        },
        Kind::Agreed {
            length: _,
            cr,
            checked,
        } => Frame {
            sf,
            low,
            cr,
            checked,
            header: 0,
        },
    }
}

// Whether a payload may have this length: at most 255, and as was agreed.
#[tactic(auto, unfolding(crate::specs::Count::takes))]
fn takes(kind: Kind, length: usize) -> bool
    ensures { result ≡ takes kind length }
{
    if layout::LONGEST < length {
        return false;
    }
    match kind {
        Kind::Explicit { .. } => true,
        Kind::Agreed { length: agreed, .. } => length == agreed,
    }
}

// The shape of a frame with a payload of this length.
#[tactic(auto, unfolding(crate::specs::Count::count_of))]
pub fn shape_of(s: Settings, length: usize) -> Result<Shape, Refusal>
    ensures { Shaped s length result }
{
    let frame = frame_of(s);
    if !layout::valid_sf(frame.sf) {
        return Err(Refusal {
            number: refusal::BAD_SF,
            place: 0,
        });
    }
    if !layout::valid_cr(frame.cr) {
        return Err(Refusal {
            number: refusal::BAD_CR,
            place: 0,
        });
    }
    if !takes(s.kind, length) {
        return Err(Refusal {
            number: refusal::TOO_LONG,
            place: 0,
        });
    }
    Ok(Shape {
        frame,
        len: length,
        total: layout::symbols_of(frame, length),
    })
}

// How many symbols a frame with a payload of this length has.
pub fn count(s: Settings, length: usize) -> Result<usize, Refusal>
    ensures { result ≡ count_of s length }
{
    let shape = shape_of(s, length)?;
    Ok(shape.total)
}
