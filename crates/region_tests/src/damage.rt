// A region of two frames, and every kind of damage. An answer is told by the place behind the frame, or by a fault's number and detail.
use crate::told::{Told, UPPER, told};
use board::through::ThroughBoard;
use region::format::format;
use region::read::{Spot, read_frame, read_header};

// The last frame ends exactly at the region's end.
const SIZE: usize = 83;

// The bottom frame at 5 and a frame of kind 1 at 44.
// kept: the answer of the format is dropped, since what is read shows whether it was granted.
fn two_frames() -> [u8; SIZE] {
    let mut bytes = [0; SIZE];
    let _ = format(&mut ThroughBoard::over(&mut bytes));
    bytes[43] = 0;
    bytes[47] = 1;
    bytes[82] = 1;
    bytes
}

// The frame at place `first` of the first `size` places.
// kept: two numbers and no `Spot`, since the tables of examples below read better by them.
fn frame(mut bytes: [u8; SIZE], size: usize, below: usize, first: usize) -> Told<u64> {
    let board = ThroughBoard::over(&mut bytes[..size.min(SIZE)]);
    told(read_frame(&board, Spot { first, below }).map(|head| head.extent.end() as u64))
}

fn header(mut bytes: [u8; SIZE], size: usize) -> Told<()> {
    let board = ThroughBoard::over(&mut bytes[..size.min(SIZE)]);
    told(read_header(&board))
}

// Two frames, with one byte changed.
fn changed(place: usize, byte: u8) -> [u8; SIZE] {
    let mut bytes = two_frames();
    if let Some(old) = bytes.get_mut(place) {
        *old = byte;
    }
    bytes
}

// The upper frame, with one byte changed.
fn upper(place: usize, byte: u8) -> Told<u64> {
    frame(changed(place, byte), SIZE, 1, 44)
}

// The bottom frame, with one byte changed.
fn bottom(place: usize, byte: u8) -> Told<u64> {
    frame(changed(place, byte), SIZE, 0, 5)
}

// A frame with so many arguments.
fn long_frame(count: u16) -> Told<u64> {
    let mut bytes = [0; 400];
    let [high, low] = count.to_be_bytes();
    bytes[44] = high;
    bytes[45] = low;
    bytes[47] = 1;
    if let Some(marker) = bytes.get_mut(82 + usize::from(count)) {
        *marker = 1;
    }
    let board = ThroughBoard::over(&mut bytes);
    told(read_frame(&board, UPPER).map(|head| head.extent.end() as u64))
}

// A frame that ends at the region's end is read; one that passes it is not, nor where only its first bytes would.
#[test]
fn ends_of_frames(rt: HostRuntime) {
    let bytes = two_frames();
    assert_eq!(rt;
        [
            frame(bytes, 83, 0, 5),
            frame(bytes, 83, 1, 44),
            frame(bytes, 82, 1, 44),
            frame(bytes, 83, 1, 45),
        ],
        [Ok(44), Ok(83), Err((11, 44)), Err((11, 45))]
    );
    assert_eq!(rt;
        [
            upper(45, 1),
            frame(bytes, 83, 1, 81),
            frame(bytes, 83, 1, 83),
            frame(bytes, 83, 1, usize::MAX),
        ],
        [
            Err((11, 44)),
            Err((11, 81)),
            Err((11, 83)),
            Err((11, u64::MAX))
        ]
    );
}

// The bottom has kind 0 and no arguments, another frame has neither kind 0 nor more than 255 arguments.
#[test]
fn kinds_and_counts(rt: HostRuntime) {
    assert_eq!(rt;
        [bottom(8, 1), bottom(6, 1), upper(47, 0), upper(46, 255)],
        [Err((11, 5)), Err((11, 5)), Err((11, 44)), Ok(83)]
    );
    assert_eq!(rt;
        [long_frame(255), long_frame(256)],
        [Ok(338), Err((11, 44))]
    );
}

// Markers above 3 and live tags above 1 are damage; an idle tag is not looked at.
#[test]
fn markers_and_tags(rt: HostRuntime) {
    assert_eq!(rt;
        [upper(82, 3), upper(82, 4), upper(82, 255), bottom(43, 4)],
        [Ok(83), Err((11, 44)), Err((11, 44)), Err((11, 5))]
    );
    assert_eq!(rt;
        [upper(48, 1), upper(48, 2), upper(65, 2), bottom(9, 2)],
        [Ok(83), Err((11, 44)), Ok(83), Err((11, 5))]
    );
}

// The 65th frame is refused, with the place where it would start.
#[test]
fn too_many_frames(rt: HostRuntime) {
    let bytes = two_frames();
    assert_eq!(rt;
        [
            frame(bytes, 83, 63, 44),
            frame(bytes, 83, 64, 44),
            frame(bytes, 83, 64, 83),
        ],
        [Ok(83), Err((11, 44)), Err((11, 83))]
    );
}

// 8 comes before 9, and 9 before 10.
#[test]
fn headers(rt: HostRuntime) {
    let bytes = two_frames();
    assert_eq!(rt;
        [header(bytes, 83), header(bytes, 43), header(bytes, 44)],
        [Ok(()), Err((8, 0)), Err((10, 0))]
    );
    assert_eq!(rt;
        [
            header(changed(4, 84), 83),
            header(changed(0, 2), 83),
            header(changed(0, 2), 44),
            header(changed(0, 2), 43),
        ],
        [Err((10, 0)), Err((9, 0)), Err((9, 0)), Err((8, 0))]
    );
}
