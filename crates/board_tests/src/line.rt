use crate::any::{
    Told, ends, no_places, post_and_settle, post_store_settle, read, rounds, settle, store,
    supplies,
};
use board::Board;
use board::line::{Cell, LineBoard};

#[test]
fn line_ends(rt: HostRuntime) {
    let mut cells = [Cell::settled_at(0); 70];
    let mut board = LineBoard::over(&mut cells);
    assert_eq!(rt; board.line_size(), 64);
    ends(&rt, &mut board, 70, 2);
}

#[test]
fn line_no_places(rt: HostRuntime) {
    let mut cells = [];
    no_places(&rt, &mut LineBoard::over(&mut cells));
}

#[test]
fn line_supplies(rt: HostRuntime) {
    let mut cells = [Cell::settled_at(0); 70];
    supplies(&rt, &mut LineBoard::over(&mut cells), 70);
}

#[test]
fn line_rounds(rt: HostRuntime) {
    let mut cells = [Cell::settled_at(0); 66];
    rounds(&rt, &mut LineBoard::over(&mut cells), 66, 6);
}

// What is found of place 1 of three, settled at 5, after these stores there and a cut with this list.
// kept: the answers of the stores are dropped, since what is found shows whether they were granted.
fn found(stores: &[u8], wanted: &[u8]) -> Told<u8> {
    let mut cells = [Cell::settled_at(5); 3];
    let mut board = LineBoard::over(&mut cells);
    for byte in stores {
        let _ = store(&mut board, 1, *byte);
    }
    board.cut(wanted, None);
    read(&board, 1)
}

// A store alone is lost, or kept where it is wanted; another byte may not stand there.
#[test]
fn line_stored_once(rt: HostRuntime) {
    assert_eq!(rt;
        [found(&[6], &[]), found(&[6], &[9]), found(&[6], &[9, 7, 9])],
        [Ok(5), Ok(5), Ok(5)]
    );
    assert_eq!(rt;
        [
            found(&[6], &[9, 6, 9]),
            found(&[6], &[9, 5]),
            found(&[], &[9, 9]),
        ],
        [Ok(6), Ok(5), Ok(5)]
    );
}

// After two stores the byte below is unknown: any may stand there, else the settled one.
#[test]
fn line_stored_twice(rt: HostRuntime) {
    assert_eq!(rt;
        [
            found(&[6, 7], &[9, 8]),
            found(&[6, 7], &[9]),
            found(&[6, 7, 8], &[]),
        ],
        [Ok(8), Ok(5), Ok(5)]
    );
}

// A settle without a post settles nothing, a post its own line alone, and a store takes its line's posting away.
#[test]
fn line_posting(rt: HostRuntime) {
    let mut cells = [Cell::settled_at(5); 66];
    let mut board = LineBoard::over(&mut cells);
    assert_eq!(rt;
        [
            store(&mut board, 63, 6),
            store(&mut board, 64, 6),
            settle(&mut board),
        ],
        [Ok(()), Ok(()), Ok(())]
    );
    assert_eq!(rt;
        [
            board.is_loose(62),
            board.is_loose(63),
            board.is_loose(64),
            board.is_loose(66),
        ],
        [false, true, true, false]
    );
    assert_eq!(rt;
        post_store_settle(&mut board, 0, 62, 6),
        [Ok(()), Ok(()), Ok(())]
    );
    assert_eq!(rt;
        [board.is_loose(62), board.is_loose(63), board.is_loose(64)],
        [true, true, true]
    );
    assert_eq!(rt; post_and_settle(&mut board, 0), [Ok(()), Ok(())]);
    assert_eq!(rt;
        [board.is_loose(62), board.is_loose(63), board.is_loose(64)],
        [false, false, true]
    );
    board.cut(&[], None);
    assert_eq!(rt; [read(&board, 63), read(&board, 64)], [Ok(6), Ok(5)]);
}

// Cells that an earlier board left loose are settled at their present bytes.
#[test]
fn line_over_again(rt: HostRuntime) {
    let mut cells = [Cell::settled_at(5); 3];
    let _ = store(&mut LineBoard::over(&mut cells), 1, 6);
    let mut board = LineBoard::over(&mut cells);
    board.cut(&[], None);
    assert_eq!(rt; [read(&board, 0), read(&board, 1)], [Ok(5), Ok(6)]);
}
