//! What an installation of a view leaves to do for transactions.
use sig_core::TxId;

/// What becomes of a transaction when a view is installed.
#[derive(Clone, Copy, Debug, PartialEq, Eq)]
pub enum Verdict {
    /// It is aborted, since a node failed.
    Fail,
    /// Its abort begins anew.
    AbortAnew,
    /// It is decided, and is committed at all its keys once more.
    Redrive,
}

/// A transaction, and what becomes of it.
#[derive(Clone, Copy, Debug, PartialEq, Eq)]
pub struct Task {
    pub tx: TxId,
    pub verdict: Verdict,
}
