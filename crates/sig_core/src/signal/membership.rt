//! Signals by which the members agree on views.
use crate::held::Held;
use crate::member::Member;
use crate::members::Members;
use crate::outcome::StopCause;
use crate::view::View;

/// Signals by which the members agree on views.
#[derive(Drop)]
pub enum MembershipSignal {
    Heartbeat,
    FailRep {
        suspects: Members,
    },
    PrepFailReq {
        proposal: Held<View>,
    },
    PrepFailConf {
        number: u64,
    },
    PrepFailRef {
        promised: Held<View>,
    },
    FenceReq {
        proposal: Held<View>,
    },
    FenceConf,
    ArbitReq {
        number: u64,
        members: Members,
        joining: Option<Member>,
    },
    ArbitConf {
        number: u64,
    },
    ArbitRef {
        number: u64,
        members: Members,
    },
    StopSet {
        cause: StopCause,
    },
    CommitFailReq,
}
