// The survey of one board: a row for each supply.
ghost use Rattle.std.specs.Prelude.{◌≡◌, ◌≤◌, ◌↔◌, IsTrue, false, ◌⊎◌, Some};
ghost use Rattle.model.specs.Writes.{loose_at};
ghost use Rattle.survey.specs.Record.{record_end, old_record, new_record, Sure, mark};
ghost use Rattle.survey.specs.Rows.{Marked, RowShown, text_of, row_text};

use crate::kept::Kept;
use crate::record::{AT, LEN, NEW, OLD, found, update};
use board::Board;
use board::line::LineBoard;
use board::through::ThroughBoard;
use std::{array, fmt, io};

// A board of which it can be seen which places are loose.
pub trait Peek: Board {
    fn is_loose(&self, place: usize) -> bool
        ensures { result ≡ loose_at (Self.Board.meaning self.now) place };
}

impl Peek for LineBoard<'_> {
    fn is_loose(&self, place: usize) -> bool {
        LineBoard::is_loose(self, place)
    }
}

impl Peek for ThroughBoard<'_> {
    fn is_loose(&self, place: usize) -> bool {
        false
    }
}

// x for a loose place, else a dot.
fn mark(loose: bool) -> u8
    ensures { result ≡ mark loose }
{
    if loose { b'x' } else { b'.' }
}

// A mark for each place of the record.
fn marks<B: Peek>(board: &B) -> [u8; LEN]
    ensures { Marked (B.Board.meaning board.now) result }
{
    array::from_fn(|i| mark(board.is_loose(AT + i)))
}

impl Kept<[u8; LEN]> {
    // Whether every image with each byte from the old bytes or from the new ones is this record.
    fn is_sure(self, whole: &[u8; LEN]) -> bool
        ensures { IsTrue result ↔ Sure self.old self.new whole.now }
    {
        self.old == *whole && self.new == *whole
    }

    // Whether the record could be found torn, where a cut may leave each byte as in either: it could, unless it is sure to be the old
    // record, or sure to be the new one.
    fn may_tear(self) -> bool
        ensures { result ≡ false ↔ Sure self.old self.new old_record ⊎ Sure self.old self.new new_record }
    {
        !self.is_sure(&OLD) && !self.is_sure(&NEW)
    }
}

// The bytes as text, if they are.
fn text(bytes: &[u8]) -> &str
    ensures { result.now ≡ text_of bytes.now }
{
    std::str::from_utf8(bytes).unwrap_or("?")
}

// What one supply leaves of an update: how many calls are carried out, which places are loose then, and what each cut keeps.
#[derive(Clone, Copy)]
struct Row {
    supply: u64,
    carried: u64,
    marks: [u8; LEN],
    kept: Kept<[u8; LEN]>,
}

impl Row {
    // The row of one supply.
    fn of<B: Peek>(board: &mut B, supply: u64) -> Row
        ensures supply { result.supply ≡ supply }
        ensures marks { Marked (B.Board.meaning board.new) result.marks }
        ensures shown { record_end ≤ (B.Board.meaning board.old).size → RowShown B.Board.width result (B.Board.meaning board.new) }
    {
        let kept = Kept {
            old: found(board, Some(supply), &OLD),
            new: found(board, Some(supply), &NEW),
        };
        let carried = update(board, Some(supply));
        let marks = marks(board);
        Row {
            supply,
            carried,
            marks,
            kept,
        }
    }
}

impl fmt::Display for Row {
    ghost output = { λ row. Some (row_text row) };

    fn fmt<W: fmt::Write>(&self, f: &mut fmt::Formatter<W>) -> fmt::Result {
        write!(
            f,
            "{:>6} {:>7}  {}  {}  {}",
            self.supply,
            self.carried,
            text(&self.marks),
            text(&self.kept.old),
            text(&self.kept.new)
        )
    }
}

// Prints the whole table of one board.
pub(crate) fn survey<B: Peek>(rt: &impl Print, board: &mut B) -> io::Result<()> {
    println!(rt; "supply carried  loose     old kept  new kept")?;
    let points = update(board, None).saturating_add(2);
    let mut torn = 0;
    // kept: each row is printed as it comes, so a chain that counts is no plainer.
    for supply in 0..points {
        let row = Row::of(board, supply);
        println!(rt; "{row}")?;
        torn += u64::from(row.kept.may_tear());
    }
    println!(rt; "The record could be found torn at {torn} of {points} points.")
}
