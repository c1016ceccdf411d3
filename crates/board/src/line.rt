// The line board: bytes pass through a cache, and last once their line of 64 was posted and settled.
ghost use Rattle.std.specs.Prelude.{◌≡◌, ◌*◌, ◌<◌, length, None};
ghost use Rattle.std.proofs.Common.{lit≤};
ghost use Rattle.model.specs.Places.{AfterCut, is_loose};
ghost use Rattle.model.specs.Writes.{Cut, loose_at, store, post, settle};
ghost use Rattle.model.specs.Calls.{Wrote};
ghost use Rattle.board.specs.Tables.{Leaves};
ghost use Rattle.board.specs.Cells.{place_of, settled_at, after_store, after_settle, after_cut};
ghost use Rattle.board.specs.Lines.{line_width, line_board, ChangedBy, with_line, new_table, stored_table, posted_table, settled_table, cut_table, TableAfter, TableCut};

use crate::supply::draw;
use crate::{Board, Slip, within};
use model::faults::BoardFault;

// The places in a line.
const WIDTH: usize = 64;

// How often a cell was stored at since it was settled. More than once, the byte that lasts below is unknown.
#[derive(Clone, Copy, PartialEq, Eq, Debug)]
pub enum Stores {
    Never,
    Once,
    More,
}

// One place: its present byte, the byte it was settled at, the stores since then, and whether its line was posted.
// kept: these four are the parts that the project gives a cell, so `settled` and `posted` are no payload of `Stores`.
#[derive(Clone, Copy, PartialEq, Eq, Debug)]
pub struct Cell {
    present: u8,
    settled: u8,
    stores: Stores,
    posted: bool,
}

impl Cell {
    // A cell settled at a byte.
    pub const fn settled_at(byte: u8) -> Cell
        ensures { result ≡ settled_at byte }
    {
        Cell {
            present: byte,
            settled: byte,
            stores: Stores::Never,
            posted: false,
        }
    }

    fn is_loose(self) -> bool
        ensures { result ≡ is_loose (place_of self) }
    {
        self.stores != Stores::Never
    }

    // After a store.
    fn after_store(self, byte: u8) -> Cell
        ensures { result ≡ after_store byte self }
    {
        match self.stores {
            Stores::Never => Cell {
                present: byte,
                settled: self.present,
                stores: Stores::Once,
                posted: false,
            },
            _ => Cell {
                present: byte,
                settled: self.settled,
                stores: Stores::More,
                posted: false,
            },
        }
    }

    // After a settle.
    fn after_settle(self) -> Cell
        ensures { result ≡ after_settle self }
    {
        if self.posted {
            Cell::settled_at(self.present)
        } else {
            self
        }
    }

    // After a power cut: the wanted byte if it may stand here, else the settled one.
    fn after_cut(self, wanted: Option<u8>) -> Cell
        ensures exact { result ≡ after_cut wanted self }
        ensures may { AfterCut (place_of self) (place_of result) }
    {
        let byte = match (self.stores, wanted) {
            (Stores::Never, _) => self.present,
            (Stores::Once, Some(byte)) if byte == self.present => byte,
            (Stores::More, Some(byte)) => byte,
            _ => self.settled,
        };
        Cell::settled_at(byte)
    }
}

// Changes each cell, by its place in the slice.
fn change_each<F: Fn(usize, Cell) -> Cell>(cells: &mut [Cell], change: F)
    requires { F.IsAlwaysCallable change }
    ensures { ChangedBy (F.post change) cells.old cells.new }
{
    for (place, cell) in cells.iter_mut().enumerate() {
        *cell = change(place, *cell);
    }
}

// Sets the posting of the cells of a line.
fn mark_line(cells: &mut [Cell], line: usize, posted: bool)
    requires { line * line_width < length cells.old }
    ensures { cells.new ≡ with_line posted line cells.old }
{
    let first = line * WIDTH;
    let end = first + WIDTH.min(cells.len() - first);
    change_each(&mut cells[first..end], |_, cell| Cell { posted, ..cell });
}

// Stores a byte.
fn store_cell(cells: &mut [Cell], place: usize, byte: u8)
    requires { place < length cells.old }
    ensures table { cells.new ≡ stored_table place byte cells.old }
    ensures may { TableAfter (store place byte) cells.old cells.new }
{
    let cell = cells[place].after_store(byte);
    mark_line(cells, place / WIDTH, false);
    cells[place] = cell;
}

// Posts a line.
#[tactic(auto, using(crate::proofs::Tables::posted_may))]
fn post_cells(cells: &mut [Cell], line: usize)
    requires { line * line_width < length cells.old }
    ensures table { cells.new ≡ posted_table line cells.old }
    ensures may { TableAfter (post line) cells.old cells.new }
{
    mark_line(cells, line, true);
}

// Settles what is posted.
fn settle_cells(cells: &mut [Cell])
    ensures table { cells.new ≡ settled_table cells.old }
    ensures may { TableAfter settle cells.old cells.new }
{
    change_each(cells, |_, cell| cell.after_settle());
}

// What a power cut leaves of each cell.
fn cut_cells(cells: &mut [Cell], wanted: &[u8])
    ensures table { cells.new ≡ cut_table wanted.now cells.old }
    ensures may { TableCut cells.old cells.new }
{
    change_each(
        cells,
        |place, cell| cell.after_cut(wanted.get(place).copied()),
    );
}

// Settles each cell at its present byte.
fn settle_all(cells: &mut [Cell])
    ensures { cells.new ≡ new_table cells.old }
{
    change_each(cells, |_, cell| Cell::settled_at(cell.present));
}

// A board over a lent table of cells.
// kept: `over` and `size` are like the through board's over another table, since each make of the project shows the trait for its own
// meaning.
#[derive(Drop)]
pub struct LineBoard<'a> {
    cells: &'a mut [Cell],
    supply: Option<u64>,
}

impl<'a> LineBoard<'a> {
    // A board over lent cells, each settled at its present byte, with no limit to the power.
    pub fn over(cells: &'a mut [Cell]) -> LineBoard<'a>
        ensures { (result.cells.now ≡ new_table cells.old) × (result.supply ≡ None) }
    {
        settle_all(cells);
        LineBoard {
            cells,
            supply: None,
        }
    }

    // Whether a place is loose; one past the end is not.
    pub fn is_loose(&self, place: usize) -> bool
        ensures { result ≡ loose_at (line_board self.now) place }
    {
        place < self.size() && self.cells[place].is_loose()
    }
}

impl Board for LineBoard<'_> {
    ghost width = { line_width };

    ghost bounded = { (lit≤ tt, lit≤ tt) };

    ghost meaning = { line_board };

    fn size(&self) -> usize {
        self.cells.len()
    }

    fn line_size(&self) -> usize {
        WIDTH
    }

    fn read(&self, place: usize) -> Result<u8, BoardFault> {
        let cell = self
            .cells
            .get(place)
            .ok_or(BoardFault::Outside { given: place })?;
        Ok(cell.present)
    }

    fn store(&mut self, place: usize, byte: u8) -> Result<(), BoardFault>
        ensures wrote { Wrote line_width (store place byte) (line_board self.old) result (line_board self.new) }
        ensures leaves { Leaves result (stored_table place byte) self.old.cells.now self.new.cells.now }
    {
        within(place, self.size())?;
        draw(&mut self.supply)?;
        store_cell(self.cells, place, byte);
        Ok(())
    }

    fn post(&mut self, line: usize, slip: &Slip) -> Result<(), BoardFault>
        ensures wrote { Wrote line_width (post line) (line_board self.old) result (line_board self.new) }
        ensures leaves { Leaves result (posted_table line) self.old.cells.now self.new.cells.now }
    {
        let size = self.size();
        if size == 0 || line > (size - 1) / WIDTH {
            return Err(BoardFault::Outside { given: line });
        }
        draw(&mut self.supply)?;
        post_cells(self.cells, line);
        Ok(())
    }

    fn settle(&mut self, slip: Slip) -> Result<(), BoardFault>
        ensures wrote { Wrote line_width settle (line_board self.old) result (line_board self.new) }
        ensures leaves { Leaves result settled_table self.old.cells.now self.new.cells.now }
    {
        slip.spend();
        draw(&mut self.supply)?;
        settle_cells(self.cells);
        Ok(())
    }

    fn cut(&mut self, wanted: &[u8], supply: Option<u64>)
        ensures cut { Cut supply (line_board self.old) (line_board self.new) }
        ensures leaves { self.new.cells.now ≡ cut_table wanted.now self.old.cells.now }
    {
        cut_cells(self.cells, wanted);
        self.supply = supply;
    }
}
