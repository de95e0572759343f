//! Signals by which the transactions of a failed coordinator are ended.
use crate::key::Key;
use crate::member::TxId;

/// What a replica has of a transaction on a row.
#[derive(Clone, Copy, Debug, PartialEq, Eq)]
pub enum RecordState {
    Prepared,
    Committed,
    /// The record is gone, and its commit is still remembered.
    Marker,
}

/// Signals by which the transactions of a failed coordinator are ended.
#[derive(Clone, Copy)]
pub enum TakeoverSignal {
    TakeoverOrd,
    LqhTransReq,
    LqhTransConf {
        tx: TxId,
        key: Key,
        state: RecordState,
        epoch: u64,
    },
    LqhTransEnd,
    TakeoverEnd,
}
