//! Signals: what blocks send one another.
use crate::held::Held;
use crate::member::{HostId, Member};
use crate::place::Place;
use crate::view::View;

mod backup;
mod chain;
mod checkpoint;
mod client;
mod copying;
mod epoch;
mod file;
mod host;
mod joining;
mod membership;
mod subscription;
mod takeover;
mod unique;

pub use backup::BackupSignal;
pub use chain::{ChainSignal, RowWork};
pub use checkpoint::CheckpointSignal;
pub use client::ClientSignal;
pub use copying::CopyingSignal;
pub use epoch::EpochSignal;
pub use file::FileSignal;
pub use host::{HostSignal, Work};
pub use joining::JoiningSignal;
pub use membership::MembershipSignal;
pub use subscription::SubscriptionSignal;
pub use takeover::{RecordState, TakeoverSignal};
pub use unique::UniqueSignal;

/// What a signal says, by family.
#[derive(Drop)]
pub enum Body {
    Host(HostSignal),
    Client(ClientSignal),
    Chain(ChainSignal),
    Membership(MembershipSignal),
    Takeover(TakeoverSignal),
    Epoch(EpochSignal),
    Checkpoint(CheckpointSignal),
    File(FileSignal),
    Joining(JoiningSignal),
    Copying(CopyingSignal),
    Subscription(SubscriptionSignal),
    Backup(BackupSignal),
    Unique(UniqueSignal),
}

/// A signal with its header.
#[derive(Drop)]
pub struct Signal {
    /// The host that sent it.
    pub from: HostId,
    /// The member whose host sent it.
    pub member: Member,
    pub to: Place,
    /// Counts the signals from one host to another, from 0.
    pub seq: u64,
    /// The stamp of the step that sent it.
    pub stamp: u64,
    /// The view that its sender had installed.
    pub view: Held<View>,
    pub body: Body,
}
