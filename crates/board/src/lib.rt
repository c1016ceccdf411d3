// A memory board that may lose power between any two calls.
#![tactic(auto)]

ghost use Rattle.std.specs.Prelude.{◌≡◌, ℕ, ◌^◌, ◌<◌, ◌≤◌, MatchResult};
ghost use Rattle.model.specs.Writes.{Meaning, store, post, settle, Cut};
ghost use Rattle.model.specs.Faults.{Fault};
ghost use Rattle.model.specs.Calls.{Wrote, Answered};
ghost use Rattle.board.specs.Rounds.{Checked};

pub mod line;
pub mod rounds;
mod supply;
pub mod through;

use model::faults::BoardFault;

// What a round of writing holds from its posts to its settle. A value may be let go only if its type has `Drop`, and a slip has
// none: it has to be spent, by `settle` or by a round that is given it. Spending is private to this crate.
pub struct Slip(());

impl Slip {
    pub fn take() -> Slip {
        Slip(())
    }

    pub(crate) fn spend(self) {
        let Slip(_) = self;
    }
}

// A board of N places in lines of L places each. `meaning` says how each place stands, and which supply of writing calls the
// power still carries. N and L never change: each relation keeps the number of places, and L belongs to the make.
pub trait Board {
    // L, the number of places in a line
    ghost width: { ℕ };

    ghost meaning: { Self → Meaning };

    // N, the number of places.
    fn size(&self) -> usize
        ensures { result ≡ (meaning self.now).size };

    // L, the number of places in a line.
    fn line_size(&self) -> usize
        ensures { result ≡ width };

    // The present byte.
    fn read(&self, place: usize) -> Result<u8, BoardFault>
        ensures { Answered place (meaning self.now) result };

    // Makes a byte present. It need not last before its line is posted and settled.
    fn store(&mut self, place: usize, byte: u8) -> Result<(), BoardFault>
        ensures { Wrote width (store place byte) (meaning self.old) result (meaning self.new) };

    // Starts to write a line back: its loose places become posted.
    fn post(&mut self, line: usize, slip: &Slip) -> Result<(), BoardFault>
        ensures { Wrote width (post line) (meaning self.old) result (meaning self.new) };

    // Waits for what was posted: it lasts from now on. The slip is spent, whether the call is granted or refused.
    fn settle(&mut self, slip: Slip) -> Result<(), BoardFault>
        ensures { Wrote width settle (meaning self.old) result (meaning self.new) };

    // The power goes, and comes back with a new supply. What was loose may be lost; the make decides, and may follow the wanted bytes.
    fn cut(&mut self, wanted: &[u8], supply: Option<u64>)
        ensures { Cut supply (meaning self.old) (meaning self.new) };

    // What L may be.
    ghost bounded: { (1 ≤ width) × (width ≤ 4096) };
}

// Refuses a place or a line that is `end` or more with 2.
pub(crate) fn within(given: usize, end: usize) -> Result<(), BoardFault>
    ensures { MatchResult result (λ _. given < end) (λ e. (end ≤ given) × Fault 2 given e) }
{
    if given >= end {
        return Err(BoardFault::Outside { given });
    }
    Ok(())
}

// Refuses a stretch of `count` places from `at` on that passes the board's end with 2 and the first place outside.
pub fn check_places<B: Board>(board: &B, at: usize, count: usize) -> Result<(), BoardFault>
    ensures checked { Checked at count (B.meaning board.now).size result }
    ensures fits { (B.meaning board.now).size < 2 ^ 64 }
{
    let size = board.size();
    if at > size || count > size - at {
        return Err(BoardFault::Outside {
            given: at.max(size),
        });
    }
    Ok(())
}
