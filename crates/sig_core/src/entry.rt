//! Entries of the history.
use crate::member::{HostId, TxId};
use crate::op::{Answer, Op};
use crate::seq::Seq;

/// A decided transaction: what it asked and was answered, and where it was decided.
#[derive(Drop)]
pub struct Entry {
    pub tx: TxId,
    /// The number of the view in which it was decided.
    pub view: u64,
    /// The stamp of the step that decided it.
    pub stamp: u64,
    /// The host of that step.
    pub host: HostId,
    pub epoch: u64,
    pub ops: Seq<(Op, Answer)>,
}
