// The byte format of a region that holds a stack: reading it over any board, the bytes that are written, and format. The plans of the
// changes are definitions in specs/, with what a power cut leaves of one.
#![tactic(auto)]

ghost use Rattle.region.specs.Laws.{RegionLaws};

pub mod format;
pub mod read;
mod rounds;
pub mod stretch;
pub mod write;

// The laws of the format.
// kept: it is like the other functions without code, but a fact can be no type parameter.
pub fn region_laws()
    ensures { RegionLaws }
{}
