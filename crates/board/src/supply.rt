// The supply of writing calls.
ghost use Rattle.board.specs.Supply.{Drawn};

use model::faults::BoardFault;

// Draws one writing call on a supply; where none is left it stays.
// kept: the project takes a supply apart where it is used, and the three cases have three answers.
pub(crate) fn draw(supply: &mut Option<u64>) -> Result<(), BoardFault>
    ensures { Drawn supply.old result supply.new }
{
    match *supply {
        None => Ok(()),
        Some(0) => Err(BoardFault::NoPower { carried: 0 }),
        Some(left) => {
            *supply = Some(left - 1);
            Ok(())
        }
    }
}
