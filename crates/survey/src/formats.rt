// A format over a region that holds something, cut off at every supply.
ghost use Rattle.std.specs.Prelude.{◌≡◌, Some, None};
ghost use Rattle.std.specs.Fmt.{padded};
ghost use Rattle.model.specs.Writes.{Cut};
ghost use Rattle.region.specs.Frames.{SizeAllowed};
ghost use Rattle.survey.specs.Formats.{finding_text, Classed, StoppedFormat, FormatShown, KeptShown, run_text};

use crate::kept::Kept;
use crate::record::{prepare, present_bytes};
use board::Board;
use layout::LEAST_SIZE;
use model::faults::Fault;
use region::format::format;
use std::{fmt, io};

// The region before the format, on a board of 128 places: a bottom frame whose pad 1 is live, with progress 7.
const BEFORE: [u8; LEAST_SIZE] = [
    1, 0, 0, 0, 128, // version, number of places
    0, 0, 0, 0, // no arguments, kind 0
    0, 0, 0, 0, 0, 0, 0, 0, 0, 0, 0, 0, 0, 0, 0, 0, 0, // pad 0
    0, 0, 0, 0, 0, 0, 0, 0, 0, 0, 0, 0, 0, 0, 0, 0, 7, // pad 1
    3, // marker
];

// How places 0 to 43 are found after a format and a power cut.
#[derive(Clone, Copy, PartialEq, Eq)]
pub enum Finding {
    AsBefore,
    Blank,
    Empty,
}

impl Finding {
    // What is printed of it. It stands apart from `Display`, whose promise holds only of a granted write.
    fn text(self) -> &'static str
        ensures { result.now ≡ finding_text self }
    {
        match self {
            Finding::AsBefore => "as before",
            Finding::Blank => "blank",
            Finding::Empty => "empty",
        }
    }
}

// Which of the three these bytes are. What is neither blank nor as before is taken for empty; that nothing else is found is proved of
// `found`.
impl From<[u8; LEAST_SIZE]> for Finding {
    ghost from_gives = { λ found result. Classed result found };

    fn from(found: [u8; LEAST_SIZE]) -> Finding {
        if found[0] == 0 {
            Finding::Blank
        } else if found == BEFORE {
            Finding::AsBefore
        } else {
            Finding::Empty
        }
    }
}

impl fmt::Display for Finding {
    ghost output = { λ finding. Some (finding_text finding) };

    ghost styled_output = { λ finding spec. Some (padded spec (finding_text finding)) };

    fn fmt<W: fmt::Write>(&self, f: &mut fmt::Formatter<W>) -> fmt::Result {
        f.pad(self.text())
    }
}

// Which bytes a cut is to keep of a place that was written and not settled.
#[derive(Clone, Copy)]
enum Wish {
    Old,
    New,
}

// Formats the region, and answers how many writing calls were carried out.
// kept: the size stands in the clauses here and below: a smaller board is no error, and a struct over those of a region's size would have
// to refuse it.
fn start_format<B: Board>(board: &mut B, supply: Option<u64>) -> u64
    ensures { SizeAllowed (B.meaning board.old).size → StoppedFormat B.width supply result (B.meaning board.new) }
{
    prepare(board, supply, 0, &BEFORE);
    format(board).unwrap_or_else(Fault::detail)
}

// Cuts the power. Where the old bytes are to be kept no byte is wanted; for the new ones the present bytes are.
fn cut<B: Board>(board: &mut B, wish: Wish)
    ensures { Cut None (B.meaning board.old) (B.meaning board.new) }
{
    match wish {
        Wish::Old => board.cut(&[], None),
        Wish::New => board.cut(&present_bytes::<LEAST_SIZE, B>(board, 0), None),
    }
}

// Formats the region and cuts the power, and answers what is found.
fn found<B: Board>(board: &mut B, supply: u64, wish: Wish) -> Finding
    ensures { SizeAllowed (B.meaning board.old).size → FormatShown B.width (Some supply) result (B.meaning board.new) }
{
    let _ = start_format(board, Some(supply));
    cut(board, wish);
    Finding::from(present_bytes::<LEAST_SIZE, B>(board, 0))
}

// The supplies from `first` to `last`, which have equal findings.
#[derive(Clone, Copy)]
struct Run {
    first: u64,
    last: u64,
    kept: Kept<Finding>,
}

impl Run {
    // The run of one supply.
    #[tactic(auto, using(crate::proofs::Findings::format_size))]
    fn of<B: Board>(board: &mut B, supply: u64) -> Run
        ensures first { result.first ≡ supply }
        ensures last { result.last ≡ supply }
        ensures kept { SizeAllowed (B.meaning board.old).size → KeptShown B.width supply result.kept (B.meaning board.new) }
    {
        let kept = Kept {
            old: found(board, supply, Wish::Old),
            new: found(board, supply, Wish::New),
        };
        Run {
            first: supply,
            last: supply,
            kept,
        }
    }
}

impl fmt::Display for Run {
    ghost output = { λ run. Some (run_text run) };

    fn fmt<W: fmt::Write>(&self, f: &mut fmt::Formatter<W>) -> fmt::Result {
        write!(
            f,
            "{:>6} to {:<6} {:<9}  {}",
            self.first, self.last, self.kept.old, self.kept.new
        )
    }
}

// Prints the findings of one board: a row for each run of supplies with equal ones.
pub(crate) fn survey_format<B: Board>(rt: &impl Print, board: &mut B) -> io::Result<()> {
    println!(rt; "      supply     old kept   new kept")?;
    let needed = start_format(board, None);
    let mut run = Run::of(board, 0);
    for supply in 1..needed.saturating_add(2) {
        let next = Run::of(board, supply);
        if next.kept == run.kept {
            run.last = supply;
        } else {
            println!(rt; "{run}")?;
            run = next;
        }
    }
    println!(rt; "{run}")
}
