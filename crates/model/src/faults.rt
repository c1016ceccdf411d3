// What a board refuses, and what the stack over it refuses.
ghost use Rattle.std.specs.Prelude.{◌≡◌, ℕ};
ghost use Rattle.model.specs.declared.faults.Layer.{Layer};
ghost use Rattle.model.specs.declared.faults.StackFault.TheVariants.{Board};

// The layer whose refusal a fault is.
#[derive(Clone, Copy, PartialEq, Eq, Debug)]
pub enum Layer {
    Board,
    Stack,
    Runner,
}

// A refusal: its number, the layer whose refusal it is, and its detail. The layers above pass it up whole, but for the count in a refusal 1.
pub trait Fault: Copy {
    ghost number: { Self → ℕ };

    ghost layer: { Self → Layer };

    ghost detail: { Self → ℕ };

    fn number(self) -> u8
        ensures { result ≡ number self };

    fn layer(self) -> Layer
        ensures { result ≡ layer self };

    fn detail(self) -> u64
        ensures { result ≡ detail self };
}

#[derive(Clone, Copy, PartialEq, Eq, Debug)]
pub enum BoardFault {
    // 1, no power: how many writing calls of the operation were carried out. The board itself says 0; a layer above sets it.
    NoPower { carried: u64 },
    // 2, outside the board: the place or the line that was given.
    Outside { given: usize },
}

impl Fault for BoardFault {
    ghost use Rattle.model.specs.Faults.{number, layer, detail};

    ghost number = { number };

    ghost layer = { layer };

    ghost detail = { detail };

    fn number(self) -> u8 {
        match self {
            BoardFault::NoPower { .. } => 1,
            BoardFault::Outside { .. } => 2,
        }
    }

    fn layer(self) -> Layer {
        Layer::Board
    }

    fn detail(self) -> u64 {
        match self {
            BoardFault::NoPower { carried } => carried,
            BoardFault::Outside { given } => given as u64,
        }
    }
}

// What the stack layer refuses: a caller's mistake, what its region holds, or the board's own refusal, passed up with the count set in a refusal 1.
#[derive(Clone, Copy, PartialEq, Eq, Debug)]
pub enum StackFault {
    Board(BoardFault),
    // 5, more argument bytes than a frame may have.
    TooManyArguments,
    // 8, the board has too few or too many places for a region.
    BoardSize,
    // 9, place 0 does not hold the version.
    Version,
    // 10, places 1 to 4 do not hold the number of places.
    StoredSize,
    // 11, a damaged frame: its first place.
    Damaged { first: usize },
}

// The board's refusal, as the stack's.
impl From<BoardFault> for StackFault {
    ghost from_gives = { λ refused result. result ≡ Board refused };

    fn from(refused: BoardFault) -> StackFault {
        StackFault::Board(refused)
    }
}

impl Fault for StackFault {
    ghost use Rattle.model.specs.Faults.{stack_number, stack_layer, stack_detail};

    ghost number = { stack_number };

    ghost layer = { stack_layer };

    ghost detail = { stack_detail };

    fn number(self) -> u8 {
        match self {
            StackFault::Board(fault) => fault.number(),
            StackFault::TooManyArguments => 5,
            StackFault::BoardSize => 8,
            StackFault::Version => 9,
            StackFault::StoredSize => 10,
            StackFault::Damaged { .. } => 11,
        }
    }

    fn layer(self) -> Layer {
        match self {
            StackFault::Board(fault) => fault.layer(),
            _ => Layer::Stack,
        }
    }

    fn detail(self) -> u64 {
        match self {
            StackFault::Board(fault) => fault.detail(),
            StackFault::Damaged { first } => first as u64,
            _ => 0,
        }
    }
}
