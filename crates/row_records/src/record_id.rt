//! What a record is found by, and what it says.

use sig_core::{Key, TxId, Value};

/// The record of a transaction on a key.
#[derive(Clone, Copy, PartialEq, Eq, Hash)]
pub struct RecordId {
    pub tx: TxId,
    pub key: Key,
}

/// What the transaction makes of the row.
#[derive(Clone, Copy)]
pub struct Version {
    /// None is a deletion.
    pub image: Option<Value>,
    /// The image is the row.
    pub committed: bool,
    /// That of the commit, 0 before.
    pub epoch: u64,
}
