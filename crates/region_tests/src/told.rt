// What the tests of this crate share.
use model::faults::Fault;
use region::read::Spot;

// The bottom frame, and the one above it.
pub(crate) const BOTTOM: Spot = Spot { first: 5, below: 0 };

pub(crate) const UPPER: Spot = Spot {
    first: 44,
    below: 1,
};

// An answer, with a fault told by its number and its detail.
// kept: what a fault tells is what is tested here, and not which case of its enum it is; the two crates of tests share none.
pub(crate) type Told<T> = Result<T, (u8, u64)>;

pub(crate) fn told<T, F: Fault>(answer: Result<T, F>) -> Told<T> {
    answer.map_err(|fault| (fault.number(), fault.detail()))
}
