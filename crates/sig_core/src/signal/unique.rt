//! Operations where values are unique.
use crate::held::Held;
use crate::held_op::HeldOp;
use crate::member::TxId;
use crate::unique::UAnswer;

/// An operation of a client where values are unique, and its answer. The coordinator makes several
/// operations on rows of it.
#[derive(Drop)]
pub enum UniqueSignal {
    TcUniqueReq { tx: TxId, op: HeldOp },
    TcUniqueConf { tx: TxId, answer: Held<UAnswer> },
}
