//! What the disks of a cluster have.
ghost use Rattle.std.specs.Prelude.{◌<◌, ◌^◌};

use row_map::RowMap;
use sig_core::Seq;

/// What the disks of a cluster have: the rows of each group of nodes, the first group first, as they are in an
/// epoch of the life that was the last to begin. Of disks that were never written it is generation 0, epoch 0
/// and groups without rows.
#[derive(Drop)]
pub struct Restored {
    pub generation: u64,
    pub epoch: u64,
    pub groups: Seq<RowMap>,
}

/// A law, which does nothing: the numbers of what was restored are such as their types have.
pub(crate) fn numbers_fit(restored: &Restored)
    ensures generation { restored.now.generation < 2 ^ 64 }
    ensures epoch { restored.now.epoch < 2 ^ 64 }
{
    let _generation = restored.generation;
    let _epoch = restored.epoch;
}
