//! What a host sends.

use sig_core::{HostId, Signal};

/// A signal on its way to a host. Its number is given as it is sent.
#[derive(Drop)]
pub struct Sending {
    pub to: HostId,
    pub signal: Signal,
}
