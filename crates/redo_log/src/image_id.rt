//! What a prepared image is found by.

use sig_core::{Key, TxId};

/// A transaction and a key.
#[derive(Clone, Copy, PartialEq, Eq, Hash)]
pub struct ImageId {
    pub tx: TxId,
    pub key: Key,
}
