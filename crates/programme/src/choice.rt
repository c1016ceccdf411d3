// What a programme chooses, and what it refuses.
use model::faults::{Fault, Layer};
use plain::{Answer, Progress};

// What the top activity does at a step.
#[derive(Clone, Copy, PartialEq, Eq, Debug)]
pub enum Choice {
    // Nothing, until a later step.
    Wait,
    // It notes its progress.
    Note(Progress),
    // It ends, and hands this answer to the activity that opened it.
    Give(Answer),
    // It opens an activity of this kind; so many argument bytes stand at the front of the lent buffer.
    // kept: the project lends a programme the buffer for these bytes, so a choice holds their number, and no bytes of its own; and a kind is
    // a number, as it asks.
    Call { kind: u16, count: usize },
}

// What is refused when a programme is asked.
#[derive(Clone, Copy, PartialEq, Eq, Debug)]
pub enum ProgrammeFault {
    // 12, the programme has no such kind.
    UnknownKind,
    // 13, the arguments are not of the kind's length, or not allowed.
    WrongArguments,
    // 14, the lent buffer is too short.
    ShortBuffer,
}

impl Fault for ProgrammeFault {
    ghost use Rattle.programme.specs.Faults.{number, layer, detail};

    ghost number = { number };

    ghost layer = { layer };

    ghost detail = { detail };

    fn number(self) -> u8 {
        match self {
            ProgrammeFault::UnknownKind => 12,
            ProgrammeFault::WrongArguments => 13,
            ProgrammeFault::ShortBuffer => 14,
        }
    }

    fn layer(self) -> Layer {
        Layer::Runner
    }

    fn detail(self) -> u64 {
        0
    }
}
