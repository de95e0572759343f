//! How far a takeover has come.

/// How far a takeover has come. From `Committing` on it is at work on one transaction.
#[derive(Clone, Copy)]
pub enum Stage {
    /// Nothing is under way.
    Resting,
    /// It was ordered, and so many members have still to tell all that they have.
    Gathering { awaited: usize },
    /// The transaction is committed in its epoch, and so many `Committed` are to come.
    Committing { epoch: u64, awaited: usize },
    /// The transaction is committed, and so many `Completed` are to come.
    Completing { epoch: u64, awaited: usize },
    /// The transaction is aborted, and so many `Aborted` are to come.
    Aborting { awaited: usize },
}
