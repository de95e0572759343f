//! Signals along the chain of a row's replicas.
use crate::chain::Chain;
use crate::held_answer::HeldAnswer;
use crate::held_work::HeldWork;
use crate::key::Key;
use crate::member::TxId;
use crate::op::Op;
use crate::outcome::AbortCause;
use crate::value::Value;

/// What a replica is asked to prepare.
#[derive(Clone, Copy)]
pub enum RowWork {
    /// An operation, at the primary.
    Operate(Op),
    /// The image that the primary made of a write, at a backup. None is a deletion.
    Store(Key, Option<Value>),
}

/// Signals along the chain of a row's replicas. The chain lists them, the primary first, and `at`
/// is the place in it, from 0, of the replica that the signal is for.
#[derive(Drop)]
pub enum ChainSignal {
    LqhKeyReq {
        tx: TxId,
        work: HeldWork,
        chain: Chain,
        at: u8,
    },
    LqhKeyConf {
        tx: TxId,
        key: Key,
        answer: HeldAnswer,
    },
    LqhKeyRef {
        tx: TxId,
        key: Key,
        cause: AbortCause,
    },
    Commit {
        tx: TxId,
        key: Key,
        epoch: u64,
        chain: Chain,
        at: u8,
    },
    Committed {
        tx: TxId,
        key: Key,
    },
    Complete {
        tx: TxId,
        key: Key,
        chain: Chain,
        at: u8,
    },
    Completed {
        tx: TxId,
        key: Key,
    },
    Abort {
        tx: TxId,
        key: Key,
    },
    Aborted {
        tx: TxId,
        key: Key,
    },
}
