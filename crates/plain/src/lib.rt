// The plain stack: what the persistent stack means, with its frames in ordinary memory and no place or pad. It is the reference that
// tests compare with.
#![tactic(auto)]

ghost use Rattle.std.specs.Prelude.{◌≡◌, MatchResult};
ghost use Rattle.plain.specs.Frames.{fresh, empty, called, top_noted, above_bottom, given};
ghost use Rattle.plain.specs.Stacks.{frame, all_frames};

use std::alloc::{AllocError, Global};
use std::marker::Model;

// How far an activity has come; the activity alone knows what the number means.
#[derive(Clone, Copy, PartialEq, Eq, Debug)]
pub struct Progress {
    pub value: u64,
}

// What an activity hands to the one that opened it.
#[derive(Clone, Copy, PartialEq, Eq, Debug)]
pub struct Answer {
    pub value: u64,
}

// One activity.
#[derive(Drop)]
pub struct PlainFrame {
    // kept: a number, as the project asks: each programme has kinds of its own.
    pub kind: u16,
    pub args: Vec<u8>,
    pub progress: Progress,
    // What the activity that it opened handed to it.
    pub answer: Option<Answer>,
}

impl PlainFrame {
    // A frame with progress 0 and no answer.
    fn fresh(heap: Global, kind: u16, args: &[u8]) -> Result<PlainFrame, AllocError>
        ensures { MatchResult result (λ x. frame x ≡ fresh kind args.now) (λ _. Unit) }
    {
        Ok(PlainFrame {
            kind,
            args: args.to_vec(heap)?,
            progress: Progress { value: 0 },
            answer: None,
        })
    }
}

// The frames, bottom first. `empty` makes the bottom, and no call removes it. A contract sees a stack as the list of its frames.
#[derive(Drop)]
pub struct PlainStack {
    frames: Vec<PlainFrame>,
}

impl Model for PlainStack {
    ghost use Rattle.std.specs.Prelude.{List};
    ghost use Rattle.plain.specs.Frames.{Frame};

    ghost Value = { List Frame };

    ghost use Rattle.plain.specs.Stacks.{frames_of};

    ghost view = { frames_of };
}

impl PlainStack {
    // The bottom alone.
    pub fn empty(heap: Global) -> Result<PlainStack, AllocError>
        ensures { MatchResult result (λ s. s ≡ empty) (λ _. Unit) }
    {
        let mut frames = Vec::new(heap);
        frames.push(PlainFrame::fresh(heap, 0, &[])?)?;
        Ok(PlainStack { frames })
    }

    // Adds a fresh frame on top; without memory the stack stays.
    pub fn call(&mut self, kind: u16, args: &[u8]) -> Result<(), AllocError>
        ensures { MatchResult result (λ _. self.new ≡ called kind args.now self.old) (λ _. self.new ≡ self.old) }
    {
        let new = PlainFrame::fresh(*self.frames.allocator(), kind, args)?;
        self.frames.push(new)?;
        Ok(())
    }

    // Sets the top's progress and removes its answer.
    #[tactic(auto, using(crate::proofs::Stacks::map_set_top, crate::proofs::Stacks::map_none))]
    pub fn note(&mut self, progress: Progress)
        ensures { self.new ≡ top_noted progress self.old }
    {
        if let Some(top) = self.frames.last_mut() {
            top.progress = progress;
            top.answer = None;
        }
    }

    // Removes the top, and hands the answer to the new one. At the bottom it answers false, and the stack stays.
    // kept: a `bool`, since a give cannot fail here; as with std's `HashSet::remove`, false says that nothing was removed.
    #[tactic(auto, using(crate::proofs::Stacks::map_set_top, crate::proofs::Stacks::map_shorter))]
    pub fn give(&mut self, answer: Answer) -> bool
        ensures frames { self.new ≡ given answer self.old }
        ensures removed { result ≡ above_bottom self.old }
    {
        let above = self.frames.len() > 1;
        if above {
            self.frames.pop();
            if let Some(top) = self.frames.last_mut() {
                top.answer = Some(answer);
            }
        }
        above
    }

    // The frames, bottom first.
    pub fn frames(&self) -> &[PlainFrame]
        ensures { all_frames result.now ≡ self.now }
    {
        self.frames.as_slice()
    }
}
