// Where a frame lies.
ghost use Rattle.std.specs.Prelude.{◌≡◌, ◌+◌, ◌^◌, ◌<◌};
ghost use Rattle.layout.specs.Layout.{args_place, pad_place, marker_place, frame_size};

use crate::marker::Pad;
use crate::{ARGS_AT, BARE_FRAME, PAD_SIZE, PADS_SIZE};

// A frame's first place and the number of its argument bytes, which say where each of its parts lies.
#[derive(Clone, Copy)]
pub struct Extent {
    pub first: usize,
    pub count: usize,
    ghost ends: { first + frame_size count < 2 ^ 64 },
}

impl Extent {
    // Where the argument bytes start.
    pub fn args_place(&self) -> usize
        ensures { result ≡ args_place self.now.first }
    {
        self.first + ARGS_AT
    }

    // Where a pad starts.
    pub fn pad_place(&self, pad: Pad) -> usize
        ensures { result ≡ pad_place self.now.first self.now.count pad }
    {
        let pads = self.args_place() + self.count;
        match pad {
            Pad::Zero => pads,
            Pad::One => pads + PAD_SIZE,
        }
    }

    // Where the marker is.
    pub fn marker_place(&self) -> usize
        ensures { result ≡ marker_place self.now.first self.now.count }
    {
        self.args_place() + self.count + PADS_SIZE
    }

    // The place behind the frame.
    pub fn end(&self) -> usize
        ensures { result ≡ self.now.first + frame_size self.now.count }
    {
        self.first + BARE_FRAME + self.count
    }
}
