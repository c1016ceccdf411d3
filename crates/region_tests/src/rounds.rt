// The two rounds of each change, put together by hand on both makes of board, against the plain stack.
use crate::told::{BOTTOM, UPPER, told};
use board::line::{Cell, LineBoard};
use board::rounds::write_round;
use board::through::ThroughBoard;
use board::{Board, Slip};
use layout::marker::Marker;
use model::faults::StackFault;
use plain::{Answer, PlainFrame, PlainStack, Progress};
use region::format::format;
use region::read::{FrameHead, PadContent, Spot, read_bytes, read_frame};
use region::write::{frame_bytes, pad_bytes};
use std::process::Abort;
use std::test::Fail;

// One round; the fault is told as the stack's.
fn write<B: Board>(board: &mut B, at: usize, bytes: &[u8]) -> Result<(), StackFault> {
    let slip = Slip::take();
    write_round(board, slip, at, bytes).map_err(|stopped| stopped.fault)?;
    Ok(())
}

// A call on top of the frame at a spot.
fn call<B: Board>(board: &mut B, spot: Spot, kind: u16, args: &[u8]) -> Result<(), StackFault> {
    let top = read_frame(board, spot)?;
    let frame = frame_bytes(kind, args)?;
    write(board, top.extent.end(), frame.as_slice())?;
    write(
        board,
        top.extent.marker_place(),
        &[u8::from(top.marker.called())],
    )
}

// The two rounds that make the idle pad of a frame its live one.
fn turn<B: Board>(
    board: &mut B,
    head: &FrameHead,
    pad: PadContent,
    marker: Marker,
) -> Result<(), StackFault> {
    let idle = head.extent.pad_place(head.marker.live.other());
    write(board, idle, pad_bytes(pad).as_slice())?;
    write(board, head.extent.marker_place(), &[u8::from(marker)])
}

// A note in the frame at a spot.
fn note<B: Board>(board: &mut B, spot: Spot, progress: Progress) -> Result<(), StackFault> {
    let top = read_frame(board, spot)?;
    let pad = PadContent {
        answer: None,
        progress,
    };
    turn(board, &top, pad, top.marker.noted())
}

// A give to the frame at a spot.
fn give<B: Board>(board: &mut B, spot: Spot, answer: Answer) -> Result<(), StackFault> {
    let under = read_frame(board, spot)?;
    let pad = PadContent {
        answer: Some(answer),
        ..under.pad
    };
    turn(board, &under, pad, under.marker.given())
}

// What frames of both kinds tell.
#[derive(Clone, Copy, PartialEq, Eq, Debug)]
struct Frame {
    // kept: a number, as in both kinds of frame.
    kind: u16,
    count: usize,
    progress: Progress,
    answer: Option<Answer>,
}

impl From<FrameHead> for Frame {
    fn from(head: FrameHead) -> Frame {
        Frame {
            kind: head.kind,
            count: head.extent.count,
            progress: head.pad.progress,
            answer: head.pad.answer,
        }
    }
}

impl From<&PlainFrame> for Frame {
    fn from(frame: &PlainFrame) -> Frame {
        Frame {
            kind: frame.kind,
            count: frame.args.len(),
            progress: frame.progress,
            answer: frame.answer,
        }
    }
}

// The frame at a spot, and whether the stack ends there.
fn found<B: Board>(board: &B, spot: Spot) -> Option<(Frame, bool)> {
    let head = read_frame(board, spot).ok()?;
    Some((Frame::from(head), head.marker.last))
}

// The frames at these places are those of the plain stack, and the stack ends at the last.
fn same<B: Board>(rt: &impl Abort, board: &B, places: &[usize], plain: &PlainStack) {
    let frames = plain.frames();
    assert_eq!(rt; frames.len(), places.len());
    for (below, (frame, first)) in frames.iter().zip(places).enumerate() {
        let spot = Spot {
            first: *first,
            below,
        };
        let last = Some(first) == places.last();
        assert_eq!(rt; found(board, spot), Some((Frame::from(frame), last)));
    }
}

// The bottom at 5, a frame with three arguments at 44, and one behind it at 86.
fn changes<B: Board>(rt: &(impl Abort + AllocGlobal), board: &mut B) -> Result<(), Fail> {
    let args = [7, 8, 9];
    let mut plain = PlainStack::empty(rt.alloc())?;
    assert!(rt; format(board).is_ok());
    same(rt, board, &[5], &plain);
    plain.call(1, &args)?;
    assert!(rt; call(board, BOTTOM, 1, &args).is_ok());
    same(rt, board, &[5, 44], &plain);
    plain.note(Progress { value: 5 });
    assert!(rt; note(board, UPPER, Progress { value: 5 }).is_ok());
    plain.call(2, &[])?;
    assert!(rt; call(board, UPPER, 2, &[]).is_ok());
    same(rt, board, &[5, 44, 86], &plain);
    assert!(rt; plain.give(Answer { value: 6 }));
    assert!(rt; give(board, UPPER, Answer { value: 6 }).is_ok());
    same(rt, board, &[5, 44], &plain);
    let mut found = [0; 3];
    assert!(rt; read_bytes(board, 48, &mut found).is_ok());
    assert_eq!(rt; found, args);
    assert!(rt; plain.give(Answer { value: 7 }));
    assert!(rt; give(board, BOTTOM, Answer { value: 7 }).is_ok());
    same(rt, board, &[5], &plain);
    assert!(rt; !plain.give(Answer { value: 8 }));
    same(rt, board, &[5], &plain);
    Ok(())
}

#[test]
fn changes_on_line(rt: HostRuntime) -> Result<(), Fail> {
    let mut cells = [Cell::settled_at(0); 125];
    changes(&rt, &mut LineBoard::over(&mut cells))
}

#[test]
fn changes_on_through(rt: HostRuntime) -> Result<(), Fail> {
    let mut bytes = [0; 125];
    changes(&rt, &mut ThroughBoard::over(&mut bytes))
}

// Bytes that pass the board's end are refused with 2, and the slice stays.
#[test]
fn reads_past_the_end(rt: HostRuntime) {
    let mut bytes = [1, 2, 3];
    let board = ThroughBoard::over(&mut bytes);
    let mut found = [9; 2];
    let answer = read_bytes(&board, 2, &mut found);
    assert_eq!(rt; told(answer), Err((2, 3)));
    assert_eq!(rt; found, [9, 9]);
    assert!(rt; read_bytes(&board, 1, &mut found).is_ok());
    assert_eq!(rt; found, [2, 3]);
}
