// The operation code.
ghost use Rattle.std.specs.Prelude.{◌≡◌, ◌≤◌, length};
ghost use Rattle.bits.specs.Tab.{over};
ghost use Rattle.lora.specs.Code.{sent_symbol, Coding};

use crate::shape::Shape;
use crate::{Settings, counting};
use refusal::Refusal;

// Writes the symbols of a frame, with as much of the header as it has: all or nothing.
fn send(shape: Shape, payload: &[u8], out: &mut [u16])
    requires { (length payload.now ≡ shape.len) × (shape.total ≤ length out.old) }
    ensures { out.new ≡ over shape.total (sent_symbol shape.frame payload.now) out.old }
{
    let f = shape.frame;
    let header = header::header_nibbles(payload.len(), f.cr, f.checked);
    let checksum = checksum::checksum(payload);
    coding::write_frame(f, &header[..f.header], payload, checksum, out);
}

// Codes a payload into the lent list of symbols, and answers their count.
#[tactic(auto, unfolding(crate::specs::Code::code_of))]
pub fn code(s: Settings, payload: &[u8], out: &mut [u16]) -> Result<usize, Refusal>
    ensures { Coding s payload.now out.old out.new result }
{
    let shape = counting::shape_of(s, payload.len())?;
    let count = shape.total;
    if out.len() < count {
        return Err(Refusal {
            number: refusal::OUT_SHORT,
            place: count,
        });
    }
    send(shape, payload, out);
    Ok(count)
}
