// A section: its count, then entry after entry.
ghost use Rattle.std.specs.Prelude.{◌≡◌, false};
ghost use Rattle.day.specs.Script.{walk};
ghost use Rattle.day.specs.Day.{section, setting, frame, refused_frame};
ghost use Rattle.day.specs.Stages.{Section, numbered};

use crate::entries::{frame_end, refused_end, setting_end};
use crate::fields::count_at;
use refusal::Refusal;

// A section that was read: how many entries it has and the place behind it.
#[derive(Clone, Copy)]
pub struct Part {
    pub entries: usize,
    pub end: usize,
}

// The section at a place, whose entries a step passes: from an entry's place to the place behind it.
fn section<F: Fn(usize) -> Result<usize, Refusal>>(
    bytes: &[u8],
    at: usize,
    step: F,
) -> Result<Part, Refusal>
    requires { F.IsAlwaysCallable step }
    ensures { Section (λ x r. F.post step x r) bytes.now at result }
{
    let entries = count_at(bytes, at)?;
    let mut end = at + 1;
    for entry in 0..entries {
        end = step(end)?;
    }
    Ok(Part { entries, end })
}

pub fn settings_part(bytes: &[u8]) -> Result<Part, Refusal>
    ensures { result ≡ numbered (walk (section setting false 255) bytes.now 1) }
{
    section(bytes, 1, |at| setting_end(bytes, at))
}

pub fn frames_part(bytes: &[u8], at: usize, settings: usize) -> Result<Part, Refusal>
    ensures { result ≡ numbered (walk (section (frame settings) false 255) bytes.now at) }
{
    section(bytes, at, |at| frame_end(bytes, at, settings))
}

pub fn refused_part(bytes: &[u8], at: usize, settings: usize) -> Result<Part, Refusal>
    ensures { result ≡ numbered (walk (section (refused_frame settings) false 255) bytes.now at) }
{
    section(bytes, at, |at| refused_end(bytes, at, settings))
}
