//! How transactions and hosts end.
use crate::member::HostId;

/// Why a transaction was aborted.
#[derive(Clone, Copy, Debug, PartialEq, Eq)]
pub enum AbortCause {
    /// The client asked for it.
    Request,
    /// An operation stood in a lock's queue for eight rounds.
    Timeout,
    /// The view of this number was installed without a node that the transaction needed.
    NodeFail { view: u64 },
    /// A replica's journal has no room: bytes used, bytes reserved, bytes needed.
    LogFull { used: u64, reserved: u64, need: u64 },
    /// A replica has taken this many places for rows, and has none for another.
    TableFull { rows: u64 },
    /// The cluster went down.
    Down,
}

/// How a transaction ended, as far as its client is told.
#[derive(Clone, Copy, Debug, PartialEq, Eq)]
pub enum Outcome {
    /// Committed in this epoch.
    Committed(u64),
    Aborted(AbortCause),
    /// The cluster went down while the commit was under way.
    Unknown,
}

/// Why a host stopped.
#[derive(Clone, Copy, Debug, PartialEq, Eq)]
pub enum StopCause {
    /// It was ordered to.
    Killed,
    /// The view of this number does without its member.
    Excluded { view: u64 },
    /// A view was proposed in which this node group has no full member.
    NoGroup { group: u8 },
    /// A call on its disk failed; the disk's count of faults after that call.
    Disk { count: u64 },
    /// It had no memory for its next step.
    Memory,
    /// Its stamps are used up.
    Clock,
    /// That host of the same node stopped.
    Sibling { host: HostId },
}
