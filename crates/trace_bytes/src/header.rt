//! Headers of signals.
use sig_core::{HostId, Member, Place, View};

/// What stands before the body of a signal.
#[derive(Clone, Copy)]
pub struct Header {
    pub from: HostId,
    pub member: Member,
    pub to: Place,
    pub seq: u64,
    pub stamp: u64,
    pub view: View,
}
