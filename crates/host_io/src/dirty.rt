//! What isn't synced.

/// Places of a file from one on up to another, which isn't among them, that a crash may change.
#[derive(Clone, Copy, Debug, PartialEq, Eq)]
pub struct DirtyRange {
    pub from: usize,
    pub to: usize,
}
