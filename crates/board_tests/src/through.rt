use crate::any::{ends, no_places, read, rounds, store, supplies};
use board::Board;
use board::through::ThroughBoard;

#[test]
fn through_ends(rt: HostRuntime) {
    let mut bytes = [0; 70];
    let mut board = ThroughBoard::over(&mut bytes);
    assert_eq!(rt; board.line_size(), 1);
    ends(&rt, &mut board, 70, 70);
}

#[test]
fn through_no_places(rt: HostRuntime) {
    let mut bytes = [];
    no_places(&rt, &mut ThroughBoard::over(&mut bytes));
}

#[test]
fn through_supplies(rt: HostRuntime) {
    let mut bytes = [0; 70];
    supplies(&rt, &mut ThroughBoard::over(&mut bytes), 70);
}

#[test]
fn through_rounds(rt: HostRuntime) {
    let mut bytes = [0; 70];
    rounds(&rt, &mut ThroughBoard::over(&mut bytes), 70, 7);
}

// A stored byte lasts at once, whatever the cut wants.
#[test]
fn through_keeps(rt: HostRuntime) {
    let mut bytes = [5; 3];
    let mut board = ThroughBoard::over(&mut bytes);
    let stored = store(&mut board, 1, 6);
    board.cut(&[9, 9, 9], None);
    assert_eq!(rt; stored, Ok(()));
    assert_eq!(rt; [read(&board, 0), read(&board, 1)], [Ok(5), Ok(6)]);
}
