//! Logs: what each host did in a life.
use crate::boxed::Boxed;
use crate::key::Key;
use crate::mark::Marks;
use crate::member::HostId;
use crate::seq::Seq;
use crate::signal::Signal;
use crate::slots::Slots;
use crate::value::Value;

/// One step of a host: the signal that it took, and what the step is known by.
#[derive(Drop)]
pub struct LogStep {
    /// One more than the greater of the stamps of the host's step before and of the signal.
    pub stamp: u64,
    pub taken: Boxed<Signal>,
    pub marks: Marks,
}

/// All steps of a host, the first one first.
#[derive(Drop)]
pub struct HostLog {
    pub host: HostId,
    /// The stamp of the event that made the host; 0 for the hosts that begin a life.
    pub made: u64,
    pub steps: Seq<LogStep>,
}

/// A life of the cluster, from its start to the stop of all hosts.
#[derive(Drop)]
pub struct Life {
    /// The epoch that the life restored; its first epoch is the next.
    pub start_epoch: u64,
    /// The rows that it restored, with distinct keys.
    pub start_rows: Seq<(Key, Value)>,
    pub logs: Seq<HostLog>,
    /// What each host that was made with a disk found there, in the order of hosts.
    pub slots: Seq<Slots>,
}
