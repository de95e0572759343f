//! Rows of checkpoints.
use crate::key::Key;
use crate::value::Value;

/// A row as a checkpoint has it.
#[derive(Clone, Copy, Debug, PartialEq, Eq)]
pub struct StoredRow {
    pub key: Key,
    /// The epoch of the entry that wrote the row. Checkpoints of version 1 have none.
    pub epoch: Option<u64>,
    pub value: Value,
}
