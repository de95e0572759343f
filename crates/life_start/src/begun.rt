//! What a life begins with.
use node_disk::NodeSlots;
use sig_core::{Key, Value};

/// What a life begins with: what was restored, and the slots in use of the disks that were made ready for it.
#[derive(Drop)]
pub struct Begun {
    /// The generation of the life, from 1.
    pub generation: u64,
    /// The epoch that was restored, whose checkpoint number has another behind it.
    pub epoch: u64,
    /// The rows that were restored: those of the first group first, in byte order of their keys, and so on.
    pub rows: Vec<(Key, Value)>,
    /// Those of node 1 first.
    pub slots: Vec<NodeSlots>,
}
