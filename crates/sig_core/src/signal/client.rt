//! Signals between the API and the blocks that serve it.
use crate::held_answer::HeldAnswer;
use crate::held_op::HeldOp;
use crate::key::Key;
use crate::member::TxId;
use crate::outcome::AbortCause;
use crate::seq::Seq;
use crate::value::Value;

/// Signals between the API and the blocks that serve it. A name is the number that a script gives
/// to a transaction; the transaction of a lone operation has none.
#[derive(Drop)]
pub enum ClientSignal {
    TcBeginReq {
        name: Option<u16>,
    },
    TcBeginConf {
        name: Option<u16>,
        tx: TxId,
    },
    TcBeginRef {
        name: Option<u16>,
    },
    TcKeyReq {
        tx: TxId,
        op: HeldOp,
    },
    TcKeyConf {
        tx: TxId,
        answer: HeldAnswer,
    },
    TcCommitReq {
        tx: TxId,
    },
    TcCommitConf {
        tx: TxId,
        epoch: u64,
    },
    TcCommitAck {
        tx: TxId,
    },
    TcRollbackReq {
        tx: TxId,
    },
    TcRollbackRep {
        tx: TxId,
        cause: AbortCause,
    },
    TcKeyFailConf {
        tx: TxId,
        epoch: u64,
    },
    TcKeyFailRef {
        tx: TxId,
    },
    NfCompleteRep,
    ViewRep,
    TcWaitReq {
        tx: TxId,
    },
    TcWaitConf {
        tx: TxId,
        ahead: TxId,
    },
    LqhWaitReq {
        tx: TxId,
        key: Key,
    },
    LqhWaitConf {
        tx: TxId,
        ahead: TxId,
    },
    DumpReq {
        at: u64,
    },
    DumpConf {
        rows: Seq<(Key, Value)>,
        next: Option<u64>,
    },
}
