//! Which signals a fence stops.
ghost use Rattle.std.specs.Prelude.{◌≡◌};
ghost use Rattle.node_views.specs.Fence.{is_epoch_fenced, is_fenced, is_joining_fenced};

use sig_core::{Body, CheckpointSignal, EpochSignal, JoiningSignal, Signal};

/// Whether signals of this kind are dropped where they come from a view below the fence of the block
/// that they are for. Those about the rows of transactions, about takeovers, closings of epochs,
/// copying and backups are. Those of clients and of the membership pass, and so does what a coordinator
/// asks the epochs of its own node for, what the shell waits for, and what subscribers are told.
#[tactic(auto, unfolding(crate::specs::Fence::is_fenced))]
pub fn is_fenced(signal: &Signal) -> bool
    ensures { result ≡ is_fenced signal.now }
{
    match &signal.body {
        Body::Chain(_) | Body::Takeover(_) => true,
        Body::Epoch(body) => is_epoch_fenced(signal.member.node, signal.to.node, body),
        Body::Checkpoint(CheckpointSignal::LcpReq | CheckpointSignal::LcpRep { epoch: _ }) => false,
        Body::Checkpoint(_) => true,
        Body::Joining(body) => is_joining_fenced(body),
        Body::Copying(_) | Body::Backup(_) => true,
        _ => false,
    }
}

// Of epochs and checkpoints: what a coordinator asks for, and what the shell asks for, pass. What
// blocks of data nodes ask one another for doesn't.
fn is_epoch_fenced(from: u8, to: u8, signal: &EpochSignal) -> bool
    ensures { result ≡ is_epoch_fenced from to signal.now }
{
    match signal {
        EpochSignal::DiVerifyReq { tx: _, ops: _ }
        | EpochSignal::DiVerifyConf { tx: _, epoch: _ }
        | EpochSignal::DiVerifyEnd { tx: _ }
        | EpochSignal::MicroReq
        | EpochSignal::MicroRep { epoch: _ } => false,
        EpochSignal::GcpReq { by: _ } => from != 0,
        EpochSignal::GcpRep { epoch: _ } => to != 0,
        _ => true,
    }
}

// Of starts: what the shell asks for, and what it is answered, pass.
fn is_joining_fenced(signal: &JoiningSignal) -> bool
    ensures { result ≡ is_joining_fenced signal.now }
{
    match signal {
        JoiningSignal::StartReq { member: _, own: _ }
        | JoiningSignal::StartRep { member: _ }
        | JoiningSignal::StartEnd { member: _ }
        | JoiningSignal::StartGone { member: _ } => false,
        _ => true,
    }
}
