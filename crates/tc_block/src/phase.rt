//! How far transactions have come.
use sig_core::{AbortCause, HeldOp, Members};

/// An operation that was sent to the replicas and isn't answered.
#[derive(Drop)]
pub struct Asked {
    pub op: HeldOp,
    /// The replicas that it was sent along.
    pub chain: Members,
}

/// How far a transaction has come.
#[derive(Clone, Copy)]
pub enum Phase {
    /// It takes operations.
    Open,
    /// An epoch was asked for.
    Verifying,
    /// It is decided, and so many `Committed` are to come.
    Committing {
        epoch: u64,
        awaited: usize,
    },
    /// It is committed, and so many `Completed` are to come.
    Completing {
        epoch: u64,
        awaited: usize,
    },
    /// It is aborted. So many `Aborted` are to come, those among them for what is sent when the
    /// unanswered operation is answered.
    Aborting {
        cause: AbortCause,
        /// An epoch was asked for.
        verifying: bool,
        awaited: usize,
    },
}
