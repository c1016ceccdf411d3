// Bytes that one round of writing stores, at most those of the longest frame.
ghost use Rattle.std.specs.Prelude.{◌≡◌, ◌+◌, ◌≤◌, [], ◌++◌, length};
ghost use Rattle.layout.specs.Layout.{max_frame};

use arrayvec::ArrayVec;
use layout::MAX_FRAME;
use std::marker::Model;

// A contract sees a stretch as the list of its bytes.
#[derive(Drop)]
pub struct Stretch {
    bytes: ArrayVec<u8, MAX_FRAME>,
}

impl Model for Stretch {
    ghost use Rattle.std.specs.Prelude.{List, ℕ, ◌≤◌, length};
    ghost use Rattle.layout.specs.Layout.{max_frame};

    ghost Value = { List ℕ };

    ghost view = { λ s. s.bytes.items };

    ghost invariant = { λ s. length s.bytes.items ≤ max_frame };
}

impl Stretch {
    // No bytes.
    pub(crate) fn new() -> Stretch
        ensures { result ≡ [] }
    {
        Stretch {
            bytes: ArrayVec::new(),
        }
    }

    // Adds a piece at the end.
    pub(crate) fn append(&mut self, piece: &[u8])
        requires { length self.old + length piece.now ≤ max_frame }
        ensures { self.new ≡ self.old ++ piece.now }
    {
        self.bytes.try_extend_from_slice(piece).unwrap();
    }

    // The bytes.
    pub fn as_slice(&self) -> &[u8]
        ensures bytes { result.now ≡ self.now }
        ensures fits { length result.now ≤ max_frame }
    {
        self.bytes.as_slice()
    }
}
