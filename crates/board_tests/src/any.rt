// What every make answers alike.
use board::rounds::write_round;
use board::{Board, Slip};
use model::faults::{BoardFault, Fault, Layer};
use std::process::Abort;

// The largest place and line.
pub(crate) const MOST: u64 = u64::MAX;

// An answer, with a fault told by its number and its detail.
// kept: what a fault tells is what is tested here, and not which case of its enum it is; the two crates of tests share none.
pub(crate) type Told<T> = Result<T, (u8, u64)>;

fn told<F: Fault>(fault: F) -> (u8, u64) {
    (fault.number(), fault.detail())
}

pub(crate) fn read<B: Board>(board: &B, place: usize) -> Told<u8> {
    board.read(place).map_err(told)
}

pub(crate) fn store<B: Board>(board: &mut B, place: usize, byte: u8) -> Told<()> {
    board.store(place, byte).map_err(told)
}

pub(crate) fn settle<B: Board>(board: &mut B) -> Told<()> {
    let slip = Slip::take();
    board.settle(slip).map_err(told)
}

// What a post answers, and then a settle.
pub(crate) fn post_and_settle<B: Board>(board: &mut B, line: usize) -> [Told<()>; 2] {
    let slip = Slip::take();
    let posted = board.post(line, &slip);
    [posted.map_err(told), board.settle(slip).map_err(told)]
}

// A post, a store behind it, and then the settle.
pub(crate) fn post_store_settle<B: Board>(
    board: &mut B,
    line: usize,
    place: usize,
    byte: u8,
) -> [Told<()>; 3] {
    let slip = Slip::take();
    let posted = board.post(line, &slip);
    let stored = board.store(place, byte);
    [
        posted.map_err(told),
        stored.map_err(told),
        board.settle(slip).map_err(told),
    ]
}

// A round: its calls, or the calls carried out and the fault's number and detail.
fn round<B: Board>(board: &mut B, at: usize, bytes: &[u8]) -> Result<u64, (u64, (u8, u64))> {
    let slip = Slip::take();
    write_round(board, slip, at, bytes).map_err(|stopped| (stopped.carried, told(stopped.fault)))
}

// The last place and line are on the board; the next, and the largest number, are not.
pub(crate) fn ends<B: Board>(rt: &impl Abort, board: &mut B, size: usize, lines: usize) {
    let last = size.saturating_sub(1);
    let n = size as u64;
    assert_eq!(rt; board.size(), size);
    assert_eq!(rt;
        [
            store(board, last, 7),
            store(board, size, 7),
            store(board, usize::MAX, 7),
        ],
        [Ok(()), Err((2, n)), Err((2, MOST))]
    );
    assert_eq!(rt;
        [
            read(board, last),
            read(board, size),
            read(board, usize::MAX),
        ],
        [Ok(7), Err((2, n)), Err((2, MOST))]
    );
    assert_eq!(rt;
        post_and_settle(board, lines.saturating_sub(1)),
        [Ok(()), Ok(())]
    );
    assert_eq!(rt;
        post_and_settle(board, lines),
        [Err((2, lines as u64)), Ok(())]
    );
    assert_eq!(rt;
        post_and_settle(board, usize::MAX),
        [Err((2, MOST)), Ok(())]
    );
}

// A board of no places refuses each place and line.
pub(crate) fn no_places<B: Board>(rt: &impl Abort, board: &mut B) {
    assert_eq!(rt; read(board, 0), Err((2, 0)));
    assert_eq!(rt; [store(board, 0, 1), settle(board)], [Err((2, 0)), Ok(())]);
    assert_eq!(rt; post_and_settle(board, 0), [Err((2, 0)), Ok(())]);
}

// A supply of 0 refuses each writing call, after the check of its place; one of 1 carries one.
pub(crate) fn supplies<B: Board>(rt: &impl Abort, board: &mut B, size: usize) {
    let n = size as u64;
    board.cut(&[], Some(0));
    assert_eq!(rt;
        [store(board, 0, 1), store(board, size, 1)],
        [Err((1, 0)), Err((2, n))]
    );
    assert_eq!(rt; read(board, 0), Ok(0));
    assert_eq!(rt; post_and_settle(board, 0), [Err((1, 0)), Err((1, 0))]);
    board.cut(&[], Some(1));
    assert_eq!(rt; [store(board, 0, 1), settle(board)], [Ok(()), Err((1, 0))]);
    board.cut(&[], None);
    assert_eq!(rt; [store(board, 0, 2), settle(board)], [Ok(()), Ok(())]);
}

// A round up to the last place, past it, of no bytes, and with too little power.
pub(crate) fn rounds<B: Board>(rt: &impl Abort, board: &mut B, size: usize, calls: u64) {
    let at = size.saturating_sub(3);
    let n = size as u64;
    assert_eq!(rt;
        [
            round(board, at, b"abc"),
            round(board, at, b"wxyz"),
            round(board, usize::MAX, b"w"),
        ],
        [Ok(calls), Err((0, (2, n))), Err((0, (2, MOST)))]
    );
    assert_eq!(rt; read(board, at), Ok(97));
    board.cut(&[], Some(0));
    assert_eq!(rt;
        [round(board, usize::MAX, b""), round(board, at, b"def")],
        [Ok(0), Err((0, (1, 0)))]
    );
    board.cut(&[], Some(2));
    assert_eq!(rt; round(board, at, b"def"), Err((2, (1, 0))));
    board.cut(&[], Some(calls));
    assert_eq!(rt;
        [round(board, at, b"ghi"), round(board, at, b"jkl")],
        [Ok(calls), Err((0, (1, 0)))]
    );
    assert_eq!(rt; read(board, at), Ok(103));
}

// The three parts of a fault.
#[test]
fn faults_in_parts(rt: HostRuntime) {
    let power = BoardFault::NoPower { carried: 9 };
    let far = BoardFault::Outside { given: 70 };
    assert_eq!(rt; [told(power), told(far)], [(1, 9), (2, 70)]);
    assert_eq!(rt; [power.layer(), far.layer()], [Layer::Board, Layer::Board]);
}
