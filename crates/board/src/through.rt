// The through board: every byte lasts as soon as it is stored. Each place is a line of its own.
ghost use Rattle.std.specs.Prelude.{◌≡◌, None};
ghost use Rattle.std.proofs.Common.{lit≤};
ghost use Rattle.model.specs.Writes.{Cut, store, post, settle};
ghost use Rattle.model.specs.Calls.{Wrote};
ghost use Rattle.board.specs.Tables.{Leaves};
ghost use Rattle.board.specs.Through.{through_width, through_board, stored_bytes, same_bytes};

use crate::supply::draw;
use crate::{Board, Slip, within};
use model::faults::BoardFault;

// The places in a line.
const WIDTH: usize = 1;

// A board over lent bytes.
// kept: beside the line board, see there.
#[derive(Drop)]
pub struct ThroughBoard<'a> {
    bytes: &'a mut [u8],
    supply: Option<u64>,
}

impl<'a> ThroughBoard<'a> {
    // A board over lent bytes, with no limit to the power.
    pub fn over(bytes: &'a mut [u8]) -> ThroughBoard<'a>
        ensures { (result.bytes.now ≡ bytes.old) × (result.supply ≡ None) }
    {
        ThroughBoard {
            bytes,
            supply: None,
        }
    }
}

impl Board for ThroughBoard<'_> {
    ghost width = { through_width };

    ghost bounded = { (lit≤ tt, lit≤ tt) };

    ghost meaning = { through_board };

    fn size(&self) -> usize {
        self.bytes.len()
    }

    fn line_size(&self) -> usize {
        WIDTH
    }

    fn read(&self, place: usize) -> Result<u8, BoardFault> {
        let byte = self
            .bytes
            .get(place)
            .ok_or(BoardFault::Outside { given: place })?;
        Ok(*byte)
    }

    fn store(&mut self, place: usize, byte: u8) -> Result<(), BoardFault>
        ensures wrote { Wrote through_width (store place byte) (through_board self.old) result (through_board self.new) }
        ensures leaves { Leaves result (stored_bytes place byte) self.old.bytes.now self.new.bytes.now }
    {
        within(place, self.size())?;
        draw(&mut self.supply)?;
        self.bytes[place] = byte;
        Ok(())
    }

    fn post(&mut self, line: usize, slip: &Slip) -> Result<(), BoardFault>
        ensures wrote { Wrote through_width (post line) (through_board self.old) result (through_board self.new) }
        ensures leaves { Leaves result same_bytes self.old.bytes.now self.new.bytes.now }
    {
        within(line, self.size())?;
        draw(&mut self.supply)?;
        Ok(())
    }

    fn settle(&mut self, slip: Slip) -> Result<(), BoardFault>
        ensures wrote { Wrote through_width settle (through_board self.old) result (through_board self.new) }
        ensures leaves { Leaves result same_bytes self.old.bytes.now self.new.bytes.now }
    {
        slip.spend();
        draw(&mut self.supply)?;
        Ok(())
    }

    fn cut(&mut self, wanted: &[u8], supply: Option<u64>)
        ensures cut { Cut supply (through_board self.old) (through_board self.new) }
        ensures leaves { self.new.bytes.now ≡ same_bytes self.old.bytes.now }
    {
        self.supply = supply;
    }
}
