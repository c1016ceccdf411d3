// One round of writing over any board: stores at rising places, posts of the lines that hold one, rising, and a settle.
ghost use Rattle.std.specs.Prelude.{ℕ, ◌-◌, ◌*◌, ◌/◌, ◌<◌, ◌≤◌, length, MatchResult};
ghost use Rattle.model.specs.Rounds.{stores, posts, lines, stores_and_posts};
ghost use Rattle.board.specs.Rounds.{OnBoard, Carried, Whole, CutShort, Round};

use crate::{Board, Slip, check_places};
use model::faults::BoardFault;

// A round that was refused: the fault, and how many of the round's writing calls were carried out before it.
#[derive(Clone, Copy, PartialEq, Eq, Debug)]
pub struct Stopped {
    pub carried: u64,
    pub fault: BoardFault,
}

// Stores the bytes from `at` on.
// kept: place and bytes go side by side through this file, as in std's `write_all_at`, and `OnBoard` with them: a struct of both would be
// made for each call and taken apart in each function, and whether it lies on the board can be said only with the board at hand.
fn store_bytes<B: Board>(board: &mut B, at: usize, bytes: &[u8]) -> Result<u64, Stopped>
    requires { OnBoard at (length bytes.now) (B.meaning board.old).size }
    ensures { Carried B.width (stores at bytes.now) (B.meaning board.old) result (B.meaning board.new) }
{
    for (i, byte) in bytes.iter().enumerate() {
        board.store(at + i, *byte).map_err(|fault| Stopped {
            carried: i as u64,
            fault,
        })?;
    }
    Ok(bytes.len() as u64)
}

// Posts the lines from `first` to before `end`.
fn post_range<B: Board>(
    board: &mut B,
    first: usize,
    end: usize,
    slip: &Slip,
) -> Result<u64, Stopped>
    requires { (first ≤ end) × (((l : ℕ) → l < end → l * B.width < (B.meaning board.old).size)) }
    ensures { Carried B.width (posts first (end - first)) (B.meaning board.old) result (B.meaning board.new) }
{
    for line in first..end {
        board.post(line, slip).map_err(|fault| Stopped {
            carried: (line - first) as u64,
            fault,
        })?;
    }
    Ok((end - first) as u64)
}

// Posts each line that holds one of `count` places from `at` on: at most as many lines as places.
fn post_lines<B: Board>(board: &mut B, at: usize, count: usize, slip: &Slip) -> Result<u64, Stopped>
    requires { OnBoard at count (B.meaning board.old).size }
    ensures carried { Carried B.width (posts (at / B.width) (lines B.width at count)) (B.meaning board.old) result (B.meaning board.new) }
    ensures few { lines B.width at count ≤ count }
{
    let width = board.line_size();
    let end = (at + (count - 1)) / width + 1;
    post_range(board, at / width, end, slip)
}

// The stores and the posts of a round.
fn store_and_post<B: Board>(
    board: &mut B,
    at: usize,
    bytes: &[u8],
    slip: &Slip,
) -> Result<u64, Stopped>
    requires { OnBoard at (length bytes.now) (B.meaning board.old).size }
    ensures { Carried B.width (stores_and_posts B.width at bytes.now) (B.meaning board.old) result (B.meaning board.new) }
{
    let stored = store_bytes(board, at, bytes)?;
    let posted = post_lines(board, at, bytes.len(), slip).map_err(|stopped| Stopped {
        carried: stored + stopped.carried,
        ..stopped
    })?;
    Ok(stored + posted)
}

// The round of a stretch that lies on the board. Where a store or a post is refused, there is no power left, and the settle that
// spends the slip is refused too.
fn write_fitting<B: Board>(
    board: &mut B,
    slip: Slip,
    at: usize,
    bytes: &[u8],
) -> Result<u64, Stopped>
    requires { OnBoard at (length bytes.now) (B.meaning board.old).size }
    ensures { MatchResult result (λ k. Whole B.width at bytes.now (B.meaning board.old) k (B.meaning board.new)) (λ s. CutShort B.width at bytes.now (B.meaning board.old) s (B.meaning board.new)) }
{
    let written = store_and_post(board, at, bytes, &slip);
    let settled = board.settle(slip);
    let carried = written?;
    settled.map_err(|fault| Stopped { carried, fault })?;
    Ok(carried + 1)
}

// Writes the bytes from `at` on in one round, with the slip that it is given, and answers how many writing calls that took.
// No bytes take no calls, wherever `at` is.
pub fn write_round<B: Board>(
    board: &mut B,
    slip: Slip,
    at: usize,
    bytes: &[u8],
) -> Result<u64, Stopped>
    ensures { Round B.width at bytes.now (B.meaning board.old) result (B.meaning board.new) }
{
    if bytes.is_empty() {
        slip.spend();
        return Ok(0);
    }
    // kept: no `?`, since the slip has to be spent first.
    if let Err(fault) = check_places(board, at, bytes.len()) {
        slip.spend();
        return Err(Stopped { carried: 0, fault });
    }
    write_fitting(board, slip, at, bytes)
}
