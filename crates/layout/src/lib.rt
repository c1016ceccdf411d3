// The numbers of the region's format, the marker of a frame, and where the parts of a frame lie.
#![tactic(auto)]

pub mod extent;
pub mod marker;

// A region has from LEAST_SIZE to GREATEST_SIZE places: the header and a bottom frame fit.
pub const LEAST_SIZE: usize = FRAMES_AT + BARE_FRAME;

pub const GREATEST_SIZE: usize = 65_536;
// At most this many frames stand, and a frame has at most this many argument bytes.
pub const MAX_FRAMES: usize = 64;

pub const MAX_ARGS: usize = 255;

// The header: the version, and the number of places.
pub const VERSION: u8 = 1;

pub const VERSION_AT: usize = 0;

pub const SIZE_AT: usize = 1;

pub const SIZE_SIZE: usize = 4;
// Where the bottom frame starts.
pub const FRAMES_AT: usize = SIZE_AT + SIZE_SIZE;

// A pad: a tag, the answer and the progress.
// kept: the tags are bytes of the format; in the code an answer is an `Option`.
pub const NO_ANSWER: u8 = 0;

pub const WITH_ANSWER: u8 = 1;

pub const TAG_SIZE: usize = 1;

pub const ANSWER_SIZE: usize = 8;

pub const PROGRESS_SIZE: usize = 8;

pub const PAD_SIZE: usize = TAG_SIZE + ANSWER_SIZE + PROGRESS_SIZE;

// A frame: the number of argument bytes, the kind, the arguments, two pads and the marker.
pub const COUNT_SIZE: usize = 2;

pub const KIND_SIZE: usize = 2;

pub const ARGS_AT: usize = COUNT_SIZE + KIND_SIZE;

pub const PADS_SIZE: usize = PAD_SIZE + PAD_SIZE;

pub const MARKER_SIZE: usize = 1;
// The bytes of a frame without arguments, and of one with as many as there may be.
pub const BARE_FRAME: usize = ARGS_AT + PADS_SIZE + MARKER_SIZE;

pub const MAX_FRAME: usize = BARE_FRAME + MAX_ARGS;
