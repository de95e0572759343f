//! Signals by which a node that starts joins the others.
use crate::member::{Member, TxId};

/// Signals by which a node that starts joins the others. `own` is the epoch of the rows that it has
/// on its disk, where it has rows of its own.
#[derive(Clone, Copy)]
pub enum JoiningSignal {
    StartReq { member: Member, own: Option<u64> },
    StartRep { member: Member },
    StartEnd { member: Member },
    StartGone { member: Member },
    CopyOrd { member: Member, own: Option<u64> },
    DrainReq,
    DrainConf,
    DrainWait { tx: TxId },
    CopySaveReq,
    CopySaveConf,
    CopySaved,
    PromoteReq { member: Member },
}
