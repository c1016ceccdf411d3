// Rounds of writing that make up one operation, with the count of its writing calls.
ghost use Rattle.std.specs.Prelude.{◌≡◌, ◌+◌, ◌^◌, ◌<◌, length};
ghost use Rattle.model.specs.Rounds.{round};
ghost use Rattle.board.specs.Rounds.{OnBoard};
ghost use Rattle.region.specs.Operations.{with_count, Counted};

use board::rounds::write_round;
use board::{Board, Slip};
use model::faults::{BoardFault, StackFault};

// The refusal of an operation that carried out so many writing calls: only here is the count set.
fn counted(fault: BoardFault, carried: u64) -> StackFault
    ensures { result ≡ with_count fault carried }
{
    StackFault::from(match fault {
        BoardFault::NoPower { .. } => BoardFault::NoPower { carried },
        BoardFault::Outside { .. } => fault,
    })
}

// One round of an operation that has carried out `before` writing calls: answers how many it has carried out then.
pub(crate) fn next_round<B: Board>(
    board: &mut B,
    slip: Slip,
    before: u64,
    at: usize,
    bytes: &[u8],
) -> Result<u64, StackFault>
    requires { (OnBoard at (length bytes.now) (B.meaning board.old).size) × (before + (length bytes.now + length bytes.now + 1) < 2 ^ 64) }
    ensures { Counted B.width before (round B.width at bytes.now) (B.meaning board.old) result (B.meaning board.new) }
{
    let carried = write_round(board, slip, at, bytes).map_err(|stopped| counted(
        stopped.fault,
        before + stopped.carried,
    ))?;
    Ok(before + carried)
}
