// Programmes: what a show does at each step. A programme only chooses; it has no board and keeps nothing.
#![tactic(auto)]

ghost use Rattle.std.specs.Prelude.{◌≡◌, ℕ, ◌<◌, ◌≤◌, length, Option, MatchResult};
ghost use Rattle.plain.specs.Frames.{Frame};
ghost use Rattle.layout.specs.Layout.{max_args};
ghost use Rattle.programme.specs.Faults.{Refusal};
ghost use Rattle.programme.specs.Verdicts.{Table, Brief, Chosen, frame};

use crate::choice::{Choice, ProgrammeFault};
use layout::MAX_ARGS;
use plain::{Answer, Progress};

pub mod activity;
pub mod choice;
pub mod trail;

// The kind of the bottom frame, which every programme has.
pub const BOTTOM: u16 = 0;

// The top frame, as it is lent to a programme.
#[derive(Clone, Copy, PartialEq, Eq, Debug)]
pub struct Top<'a> {
    // kept: a number, as the project asks: each programme has kinds of its own.
    pub kind: u16,
    pub args: &'a [u8],
    pub progress: Progress,
    pub answer: Option<Answer>,
}

// A show: what each of its activities does at a step.
pub trait Programme {
    // What it means: the verdict on a top frame and a touch. It never changes.
    ghost table: { Table };

    // What the top activity does at a touch, or without one, as the table says. The argument bytes of a call are written to the front of the
    // lent buffer; otherwise it stays. A buffer shorter than 255 bytes is refused with 14 before anything else.
    fn choose(top: &Top<'_>, touch: Option<u8>, out: &mut [u8]) -> Result<Choice, ProgrammeFault>
        ensures { Chosen (table (frame top.now) touch) out.old result out.new };

    // A call has at most 255 argument bytes.
    ghost brief: { (x : Frame) (touch : Option ℕ) → Brief (table x touch) };
}

// Whether a lent buffer has room for the arguments of any call; a shorter one is refused with 14.
// kept: tried with `first_chunk_mut`, so that Trail's functions are lent an array of 255 and require nothing; of `choose` four goals then
// stayed open.
pub(crate) fn room(out: &[u8]) -> Result<(), ProgrammeFault>
    ensures { MatchResult result (λ _. max_args ≤ length out.now) (λ e. (length out.now < max_args) × Refusal 14 e) }
{
    if out.len() < MAX_ARGS {
        return Err(ProgrammeFault::ShortBuffer);
    }
    Ok(())
}
