// What a memory board means: places that hold bytes, how each byte stands, and the power that is left.
// The definitions are in specs/, and the contract of `board_laws` asks for the proof of their laws.
#![tactic(auto)]

ghost use Rattle.model.specs.Laws.{BoardLaws};

pub mod faults;

// The laws that every board keeps, whatever its make.
// kept: it is like the other functions without code, but a fact can be no type parameter.
pub fn board_laws()
    ensures { BoardLaws }
{}
