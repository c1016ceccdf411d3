// Findings in pairs.

// What is found after a cut that keeps the old bytes, and after one that keeps the new ones.
#[derive(Clone, Copy, PartialEq, Eq)]
pub(crate) struct Kept<T> {
    pub old: T,
    pub new: T,
}
