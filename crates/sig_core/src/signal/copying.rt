//! Signals by which the rows of a fragment are copied to a node that starts.
use crate::held::Held;
use crate::key::Key;
use crate::member::Member;
use crate::value::Value;

/// Signals by which the rows of a fragment are copied to a node that starts. `epoch` is the row's, and
/// `own` that of the rows that the node has on its disk, where it has rows of its own.
#[derive(Drop)]
pub enum CopyingSignal {
    CopyFragReq {
        member: Member,
        fragment: u8,
        own: Option<u64>,
    },
    CopyFragConf,
    LqhScanReq {
        fragment: u8,
        at: u64,
    },
    LqhScanConf {
        row: Option<Held<(Key, Value)>>,
        epoch: u64,
        next: Option<u64>,
    },
    LqhUnlock {
        key: Key,
    },
    CopyRowReq {
        row: Held<(Key, Value)>,
        epoch: u64,
    },
    CopyRowConf,
    /// The starting node's own row of this key is the row.
    CopyKeyReq {
        key: Key,
        epoch: u64,
    },
    CopyKeyConf,
    CopyKeyRef,
}
