//! Signals of epochs and global checkpoints.
use crate::held_answer::HeldAnswer;
use crate::held_op::HeldOp;
use crate::member::TxId;
use crate::place::BlockId;
use crate::seq::Seq;

/// Signals of epochs and global checkpoints.
#[derive(Drop)]
pub enum EpochSignal {
    DiVerifyReq {
        tx: TxId,
        ops: Seq<(HeldOp, HeldAnswer)>,
    },
    DiVerifyConf {
        tx: TxId,
        epoch: u64,
    },
    DiVerifyEnd {
        tx: TxId,
    },
    /// A global checkpoint is asked for by the client's side, or by this block of the master's node.
    GcpReq {
        by: BlockId,
    },
    GcpRep {
        epoch: u64,
    },
    MicroReq,
    MicroRep {
        epoch: u64,
    },
    /// No epoch is given from now on; `next` will follow this one.
    GcpPrepare {
        epoch: u64,
        next: u64,
    },
    GcpPrepareConf {
        epoch: u64,
    },
    GcpCommit {
        epoch: u64,
        next: u64,
    },
    GcpNodeFinish {
        epoch: u64,
    },
    /// No transaction of this epoch, or of one before it, is unfinished at any member.
    GcpClosed {
        epoch: u64,
    },
    GcpClosedConf {
        epoch: u64,
    },
    GcpSaveReq {
        epoch: u64,
    },
    GcpSaveConf {
        epoch: u64,
    },
    /// The mask has bit n - 1 for each full member n.
    CopyGciReq {
        epoch: u64,
        mask: u8,
    },
    CopyGciConf {
        epoch: u64,
    },
    GcpDone {
        epoch: u64,
    },
    GcpOrd,
    GcpStateReq,
    /// What a block doesn't know is 0.
    GcpStateConf {
        current: u64,
        prepared: u64,
        next: u64,
        closed: u64,
        saved: u64,
        durable: u64,
    },
}
