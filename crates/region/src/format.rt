// Makes a region an empty stack.
ghost use Rattle.region.specs.Frames.{SizeAllowed};
ghost use Rattle.region.specs.Operations.{FormatAnswered, FormatCarried};

use crate::read::is_allowed;
use crate::rounds::next_round;
use crate::write::fresh_bytes;
use board::{Board, Slip};
use layout::{SIZE_AT, VERSION, VERSION_AT};
use model::faults::StackFault;

// The three rounds: the region is blank, then its size and its bottom frame are written, and then it has its version.
fn three_rounds<B: Board>(board: &mut B) -> Result<u64, StackFault>
    requires { SizeAllowed (B.meaning board.old).size }
    ensures { FormatCarried B.width (B.meaning board.old) result (B.meaning board.new) }
{
    let bytes = fresh_bytes(board.size() as u32);
    let slip = Slip::take();
    let blank = next_round(board, slip, 0, VERSION_AT, &[0])?;
    let slip = Slip::take();
    let filled = next_round(board, slip, blank, SIZE_AT, bytes.as_slice())?;
    let slip = Slip::take();
    next_round(board, slip, filled, VERSION_AT, &[VERSION])
}

// Makes the region an empty stack, the bottom alone with progress 0 and no answer, and answers how many writing calls that took. On a
// board whose size no region may have it is refused with 8, and the board stays. Where the power ends it, it is refused with 1 and
// the number of writing calls carried out.
// kept: it refuses a size as `read_header` does; a function for these two lines is no plainer.
pub fn format<B: Board>(board: &mut B) -> Result<u64, StackFault>
    ensures { FormatAnswered B.width (B.meaning board.old) result (B.meaning board.new) }
{
    if !is_allowed(board.size()) {
        return Err(StackFault::BoardSize);
    }
    three_rounds(board)
}
