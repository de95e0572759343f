//! The kinds of signals, by name.
use sig_core::{
    Body, ChainSignal, ClientSignal, EpochSignal, HostSignal, MembershipSignal, TakeoverSignal,
};

/// The name of what a signal says. Those of checkpoints of rows have one name together, and so has each family that no
/// host of a run has, as files and joining.
pub fn kind_of(body: &Body) -> &'static str {
    match body {
        Body::Host(signal) => host_kind(signal),
        Body::Client(signal) => client_kind(signal),
        Body::Chain(signal) => chain_kind(signal),
        Body::Membership(signal) => membership_kind(signal),
        Body::Takeover(signal) => takeover_kind(signal),
        Body::Epoch(signal) => epoch_kind(signal),
        Body::Checkpoint(_) => "Checkpoint",
        Body::File(_) => "File",
        Body::Joining(_) => "Joining",
        Body::Copying(_) => "Copying",
        Body::Subscription(_) => "Subscription",
        Body::Backup(_) => "Backup",
        Body::Unique(_) => "Unique",
    }
}

fn host_kind(signal: &HostSignal) -> &'static str {
    match signal {
        HostSignal::Round => "Round",
        HostSignal::Kill { .. } => "Kill",
        HostSignal::Cut { .. } => "Cut",
        HostSignal::Closed { .. } => "Closed",
        HostSignal::Continue { .. } => "Continue",
    }
}

fn client_kind(signal: &ClientSignal) -> &'static str {
    match signal {
        ClientSignal::TcBeginReq { .. } => "TcBeginReq",
        ClientSignal::TcBeginConf { .. } => "TcBeginConf",
        ClientSignal::TcBeginRef { .. } => "TcBeginRef",
        ClientSignal::TcKeyReq { .. } => "TcKeyReq",
        ClientSignal::TcKeyConf { .. } => "TcKeyConf",
        ClientSignal::TcCommitReq { .. } => "TcCommitReq",
        ClientSignal::TcCommitConf { .. } => "TcCommitConf",
        ClientSignal::TcCommitAck { .. } => "TcCommitAck",
        ClientSignal::TcRollbackReq { .. } => "TcRollbackReq",
        ClientSignal::TcRollbackRep { .. } => "TcRollbackRep",
        ClientSignal::TcKeyFailConf { .. } => "TcKeyFailConf",
        ClientSignal::TcKeyFailRef { .. } => "TcKeyFailRef",
        ClientSignal::NfCompleteRep => "NfCompleteRep",
        ClientSignal::ViewRep => "ViewRep",
        ClientSignal::TcWaitReq { .. } => "TcWaitReq",
        ClientSignal::TcWaitConf { .. } => "TcWaitConf",
        ClientSignal::LqhWaitReq { .. } => "LqhWaitReq",
        ClientSignal::LqhWaitConf { .. } => "LqhWaitConf",
        ClientSignal::DumpReq { .. } => "DumpReq",
        ClientSignal::DumpConf { .. } => "DumpConf",
    }
}

fn chain_kind(signal: &ChainSignal) -> &'static str {
    match signal {
        ChainSignal::LqhKeyReq { .. } => "LqhKeyReq",
        ChainSignal::LqhKeyConf { .. } => "LqhKeyConf",
        ChainSignal::LqhKeyRef { .. } => "LqhKeyRef",
        ChainSignal::Commit { .. } => "Commit",
        ChainSignal::Committed { .. } => "Committed",
        ChainSignal::Complete { .. } => "Complete",
        ChainSignal::Completed { .. } => "Completed",
        ChainSignal::Abort { .. } => "Abort",
        ChainSignal::Aborted { .. } => "Aborted",
    }
}

fn membership_kind(signal: &MembershipSignal) -> &'static str {
    match signal {
        MembershipSignal::Heartbeat => "Heartbeat",
        MembershipSignal::FailRep { .. } => "FailRep",
        MembershipSignal::PrepFailReq { .. } => "PrepFailReq",
        MembershipSignal::PrepFailConf { .. } => "PrepFailConf",
        MembershipSignal::PrepFailRef { .. } => "PrepFailRef",
        MembershipSignal::FenceReq { .. } => "FenceReq",
        MembershipSignal::FenceConf => "FenceConf",
        MembershipSignal::ArbitReq { .. } => "ArbitReq",
        MembershipSignal::ArbitConf { .. } => "ArbitConf",
        MembershipSignal::ArbitRef { .. } => "ArbitRef",
        MembershipSignal::StopSet { .. } => "StopSet",
        MembershipSignal::CommitFailReq => "CommitFailReq",
    }
}

fn takeover_kind(signal: &TakeoverSignal) -> &'static str {
    match signal {
        TakeoverSignal::TakeoverOrd => "TakeoverOrd",
        TakeoverSignal::LqhTransReq => "LqhTransReq",
        TakeoverSignal::LqhTransConf { .. } => "LqhTransConf",
        TakeoverSignal::LqhTransEnd => "LqhTransEnd",
        TakeoverSignal::TakeoverEnd => "TakeoverEnd",
    }
}

fn epoch_kind(signal: &EpochSignal) -> &'static str {
    match signal {
        EpochSignal::DiVerifyReq { .. } => "DiVerifyReq",
        EpochSignal::DiVerifyConf { .. } => "DiVerifyConf",
        EpochSignal::DiVerifyEnd { .. } => "DiVerifyEnd",
        EpochSignal::GcpReq { .. } => "GcpReq",
        EpochSignal::GcpRep { .. } => "GcpRep",
        EpochSignal::MicroReq => "MicroReq",
        EpochSignal::MicroRep { .. } => "MicroRep",
        EpochSignal::GcpPrepare { .. } => "GcpPrepare",
        EpochSignal::GcpPrepareConf { .. } => "GcpPrepareConf",
        EpochSignal::GcpCommit { .. } => "GcpCommit",
        EpochSignal::GcpNodeFinish { .. } => "GcpNodeFinish",
        EpochSignal::GcpClosed { .. } => "GcpClosed",
        EpochSignal::GcpClosedConf { .. } => "GcpClosedConf",
        EpochSignal::GcpSaveReq { .. } => "GcpSaveReq",
        EpochSignal::GcpSaveConf { .. } => "GcpSaveConf",
        EpochSignal::CopyGciReq { .. } => "CopyGciReq",
        EpochSignal::CopyGciConf { .. } => "CopyGciConf",
        EpochSignal::GcpDone { .. } => "GcpDone",
        EpochSignal::GcpOrd => "GcpOrd",
        EpochSignal::GcpStateReq => "GcpStateReq",
        EpochSignal::GcpStateConf { .. } => "GcpStateConf",
    }
}
