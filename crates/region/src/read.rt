// Reading over any board.
ghost use Rattle.std.specs.Prelude.{◌≡◌, ◌+◌, ◌^◌, ◌<◌, true, false, ◌&&◌, length, nat_le, slice_index};
ghost use Rattle.model.specs.Writes.{bytes};
ghost use Rattle.region.specs.Numbers.{number, part};
ghost use Rattle.layout.specs.Layout.{least_size, greatest_size, frame_size, pad_place};
ghost use Rattle.region.specs.Frames.{kind_rule, SizeAllowed};
ghost use Rattle.region.specs.Reading.{has_version, has_size, header};
ghost use Rattle.region.specs.Answers.{BytesRead, pad_at, HeadRead, FrameRead};

use board::{Board, check_places};
use layout::extent::Extent;
use layout::marker::{Marker, Pad};
use layout::{
    ANSWER_SIZE, BARE_FRAME, COUNT_SIZE, GREATEST_SIZE, LEAST_SIZE, MAX_ARGS, MAX_FRAMES,
    NO_ANSWER, SIZE_AT, TAG_SIZE, VERSION, VERSION_AT, WITH_ANSWER,
};
use model::faults::{BoardFault, StackFault};
use plain::{Answer, Progress};

// The present byte; 0 past the board's end.
#[tactic(auto, using(crate::proofs::Heads::read_or_zero))]
fn byte_at<B: Board>(board: &B, place: usize) -> u8
    ensures { result ≡ slice_index (bytes (B.meaning board.now)) place }
{
    board.read(place).unwrap_or(0)
}

// Fills the slice with the present bytes from `at` on.
#[tactic(auto, using(crate::proofs::Numbers::part_by))]
fn fill<B: Board>(board: &B, at: usize, into: &mut [u8])
    requires { at + length into.old < 2 ^ 64 }
    ensures { into.new ≡ part (bytes (B.meaning board.now)) at (length into.old) }
{
    for (i, byte) in into.iter_mut().enumerate() {
        *byte = byte_at(board, at + i);
    }
}

// As many present bytes from `at` on as the array has.
fn read_array<const N: usize, B: Board>(board: &B, at: usize) -> [u8; N]
    requires { at + N < 2 ^ 64 }
    ensures { result ≡ part (bytes (B.meaning board.now)) at N }
{
    let mut bytes = [0; N];
    fill(board, at, &mut bytes);
    bytes
}

// Reads the present bytes from `at` on into the lent slice. Where they would pass the board's end it is refused with 2, with the first
// place outside, and the slice stays.
pub fn read_bytes<B: Board>(board: &B, at: usize, into: &mut [u8]) -> Result<(), BoardFault>
    ensures { BytesRead at into.old (B.meaning board.now) result into.new }
{
    check_places(board, at, into.len())?;
    fill(board, at, into);
    Ok(())
}

// What a pad holds.
#[derive(Clone, Copy, PartialEq, Eq, Debug)]
pub struct PadContent {
    pub answer: Option<Answer>,
    pub progress: Progress,
}

// What a pad of the frame holds; none if its tag is neither 0 nor 1.
fn read_pad<B: Board>(board: &B, extent: &Extent, pad: Pad) -> Option<PadContent>
    ensures { result ≡ pad_at (bytes (B.meaning board.now)) (pad_place extent.now.first extent.now.count pad) }
{
    let at = extent.pad_place(pad);
    let answer = match byte_at(board, at) {
        NO_ANSWER => None,
        WITH_ANSWER => Some(Answer {
            value: u64::from_be_bytes(read_array(board, at + TAG_SIZE)),
        }),
        _ => return None,
    };
    let progress = Progress {
        value: u64::from_be_bytes(read_array(board, at + TAG_SIZE + ANSWER_SIZE)),
    };
    Some(PadContent { answer, progress })
}

// Where a frame stands: its first place, and how many frames lie below it.
#[derive(Clone, Copy, PartialEq, Eq, Debug)]
pub struct Spot {
    pub first: usize,
    pub below: usize,
}

// A frame but for its argument bytes: where it lies, its kind, its marker, and what its live pad holds.
#[derive(Clone, Copy)]
pub struct FrameHead {
    pub extent: Extent,
    // kept: a number, as the project asks: each programme has kinds of its own.
    pub kind: u16,
    pub marker: Marker,
    pub pad: PadContent,
}

// Whether a frame above so many others may have this kind and so many argument bytes.
fn keeps_kind_rule(below: usize, kind: u16, count: usize) -> bool
    ensures { result ≡ kind_rule below kind count }
{
    if below == 0 {
        kind == 0 && count == 0
    } else {
        kind > 0 && count <= MAX_ARGS
    }
}

// The frame at a spot; none if it is damaged.
fn head_at<B: Board>(board: &B, spot: Spot) -> Option<FrameHead>
    ensures { HeadRead (bytes (B.meaning board.now)) spot.below spot.first result }
{
    let Spot { first, below } = spot;
    if below >= MAX_FRAMES {
        return None;
    }
    check_places(board, first, BARE_FRAME).ok()?;
    let count = usize::from(u16::from_be_bytes(read_array(board, first)));
    let kind = u16::from_be_bytes(read_array(board, first + COUNT_SIZE));
    check_places(board, first, BARE_FRAME + count).ok()?;
    if !keeps_kind_rule(below, kind, count) {
        return None;
    }
    let extent = Extent { first, count };
    let marker = Marker::try_from(byte_at(board, extent.marker_place())).ok()?;
    let pad = read_pad(board, &extent, marker.live)?;
    Some(FrameHead {
        extent,
        kind,
        marker,
        pad,
    })
}

// Reads the frame at a spot, but for its argument bytes, which are the `count` bytes from its `args_place` on. A damaged one is
// refused with 11 and its first place; what passes the board's end is not read.
pub fn read_frame<B: Board>(board: &B, spot: Spot) -> Result<FrameHead, StackFault>
    ensures { FrameRead (bytes (B.meaning board.now)) spot.below spot.first result }
{
    head_at(board, spot).ok_or(StackFault::Damaged { first: spot.first })
}

// Whether a region may have so many places.
pub(crate) fn is_allowed(size: usize) -> bool
    ensures test { result ≡ (nat_le least_size size && nat_le size greatest_size) }
    ensures allowed { result ≡ true → SizeAllowed size }
    ensures other { result ≡ false → SizeAllowed size → ⊥ }
{
    (LEAST_SIZE..=GREATEST_SIZE).contains(&size)
}

fn has_version<B: Board>(board: &B) -> bool
    ensures { result ≡ has_version (bytes (B.meaning board.now)) }
{
    byte_at(board, VERSION_AT) == VERSION
}

#[tactic(auto, using(crate::proofs::Heads::size_is))]
fn has_size<B: Board>(board: &B) -> bool
    ensures { result ≡ has_size (bytes (B.meaning board.now)) }
{
    u32::from_be_bytes(read_array(board, SIZE_AT)) as usize == board.size()
}

// Checks the header: 8 the board's size is none that a region may have, 9 place 0 does not hold the version, 10 places 1 to 4 do not
// hold the board's size.
#[tactic(auto, using(crate::proofs::Heads::size_is))]
pub fn read_header<B: Board>(board: &B) -> Result<(), StackFault>
    ensures { result ≡ header (bytes (B.meaning board.now)) }
{
    if !is_allowed(board.size()) {
        return Err(StackFault::BoardSize);
    }
    if !has_version(board) {
        return Err(StackFault::Version);
    }
    if !has_size(board) {
        return Err(StackFault::StoredSize);
    }
    Ok(())
}
