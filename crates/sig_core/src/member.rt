//! Nodes, their starts, and the hosts that run them.

/// A host of one life: a unit of running that takes signals. 0 is the shell host, and the others
/// are those of the data nodes, each with a number of its own.
#[derive(Clone, Copy, Debug, PartialEq, Eq, PartialOrd, Ord, Hash)]
pub struct HostId(pub u32);

/// One start of a data node. The nodes that begin a life have start 0, a later start a greater
/// number. The shell host counts as node 0 with start 0.
#[derive(Clone, Copy, Debug, PartialEq, Eq, PartialOrd, Ord, Hash)]
pub struct Member {
    /// The node, 1 to 8.
    pub node: u8,
    pub start: u32,
}

/// A transaction, by the start of the coordinator that began it.
#[derive(Clone, Copy, Debug, PartialEq, Eq, PartialOrd, Ord, Hash)]
pub struct TxId {
    /// The node of the coordinator, 1 to 8; 0 for the copying of rows.
    pub tc: u8,
    pub start: u32,
    /// Counts the transactions of that start, from 1.
    pub seq: u64,
}
