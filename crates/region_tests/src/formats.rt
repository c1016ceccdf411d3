// Formats of boards of several sizes, with and without power.
use crate::told::{Told, told};
use board::Board;
use board::line::{Cell, LineBoard};
use board::through::ThroughBoard;
use region::format::format;

fn on_through(bytes: &mut [u8]) -> Told<u64> {
    told(format(&mut ThroughBoard::over(bytes)))
}

fn on_line(supply: u64) -> Told<u64> {
    let mut cells = [Cell::settled_at(0); 44];
    let mut board = LineBoard::over(&mut cells);
    board.cut(&[], Some(supply));
    told(format(&mut board))
}

#[test]
fn sizes(rt: HostRuntime) {
    assert_eq!(rt;
        [
            on_through(&mut []),
            on_through(&mut [0; 43]),
            on_through(&mut [9; 44]),
            on_through(&mut [9; 400]),
        ],
        [Err((8, 0)), Err((8, 0)), Ok(93), Ok(93)]
    );
}

#[test]
fn supplies(rt: HostRuntime) {
    assert_eq!(rt;
        [on_line(0), on_line(3), on_line(50), on_line(51)],
        [Err((1, 0)), Err((1, 3)), Err((1, 50)), Ok(51)]
    );
}
