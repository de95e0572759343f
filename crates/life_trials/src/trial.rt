//! What the lives of a run have in common.

use sig_core::{Key, Shape};

/// What the lives of a run have in common.
#[derive(Clone, Copy)]
pub struct Trial<'a> {
    pub shape: Shape,
    /// At so many of a hundred requests failures begin.
    pub fails: u64,
    /// Whether its lives have few requests.
    pub brief: bool,
    /// How often it is tried to begin a life, where calls of disks fail.
    pub tries: u64,
    /// The keys of all rows.
    pub keys: &'a [Key],
}
