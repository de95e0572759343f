//! What a node has on its disk of the cluster and of its rows.
use crate::member::HostId;
use crate::table::Table;
use crate::view::Shape;

/// What a node has on disk of the cluster.
#[derive(Clone, Copy, Debug, PartialEq, Eq)]
pub struct SystemSlot {
    pub shape: Shape,
    /// The full members: bit n - 1 stands for node n.
    pub mask: u8,
    /// Counts the lives that the disk has begun.
    pub generation: u64,
    /// The last epoch that is durable.
    pub epoch: u64,
}

/// What a node has on disk of its rows.
#[derive(Clone, Copy, Debug, PartialEq, Eq)]
pub struct ControlSlot {
    /// The file of the checkpoint, 2 or 3.
    pub ckpt_file: u8,
    /// The parity of the redo files, 0 or 1.
    pub parity: u8,
    pub generation: u64,
    /// Rises by one with each slot that is written, from 1 on in each generation.
    pub serial: u64,
    /// The last epoch that is saved.
    pub saved: u64,
    /// The positions between which the redo log belongs to the checkpoint.
    pub redo_start: u64,
    pub redo_end: u64,
    /// The bytes of the checkpoint.
    pub ckpt_size: u64,
}

/// The rows that a node has on its disk, as they are in one epoch.
#[derive(Drop)]
pub struct Own {
    pub epoch: u64,
    pub rows: Table,
}

/// The slots in use that a host found on its node's disk when it was made.
#[derive(Drop)]
pub struct Slots {
    pub host: HostId,
    /// The place of the system slot, 0 or 1; 0 where none is in use.
    pub system_at: u8,
    pub system: Option<SystemSlot>,
    /// The place of the control slot, 0 or 1; 0 where none is in use.
    pub control_at: u8,
    pub control: Option<ControlSlot>,
    /// The rows that the node starts with. None for a host that begins a life.
    pub own: Option<Own>,
}
