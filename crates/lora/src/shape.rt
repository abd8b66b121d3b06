// What is known of a frame before its symbols are read.
ghost use Rattle.std.specs.Prelude.{◌≡◌, ◌≤◌};
ghost use Rattle.layout.specs.Layout.{symbols_of};
ghost use Rattle.layout.specs.Ranges.{Valid};

use layout::Frame;

// How a frame is laid out, the length of its payload, and how many symbols it has.
#[derive(Clone, Copy)]
pub struct Shape {
    pub frame: Frame,
    pub len: usize,
    pub total: usize,
    ghost valid: { Valid frame },
    ghost short: { len ≤ 255 },
    ghost whole: { total ≡ symbols_of frame len },
}
