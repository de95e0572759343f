//! How far a local checkpoint has come, and what a disk is to do of a step.

use local_ckpt::Ckpt;
use sig_core::{Finished, Piece};

/// How far a local checkpoint has come.
#[derive(Drop)]
pub enum Stage {
    /// None is under way.
    Resting,
    /// The rows are walked, for the master of the node `to`.
    Walking { walk: Ckpt, to: u8 },
    /// All rows were given out, and the journal ended at this position then.
    Walked { finished: Finished, end: u64 },
}

/// What a disk is to do of a step. A file of a checkpoint is the one that isn't in use, whatever its
/// number here says.
#[derive(Drop)]
pub enum Todo {
    Nothing,
    /// Write a piece of a checkpoint.
    Write(Piece),
    /// Sync the checkpoint that was written.
    Sync,
    /// Name the checkpoint that was written: from now on it is the one in use.
    Name(Finished),
}
