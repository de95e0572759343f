//! What signals say.
ghost use Rattle.std.specs.Prelude.{◌≡◌, ◌++◌, OnOk};
ghost use Rattle.trace_bytes.specs.Bodies.{body_bytes};

use crate::output::Output;
use sig_core::{Body, NoMemory};

impl Output {
    /// Adds what a signal says.
    pub fn body(&mut self, body: &Body) -> Result<(), NoMemory>
        ensures { OnOk result (self.new ≡ self.old ++ body_bytes body.now) }
    {
        match body {
            Body::Host(signal) => self.host_signal(signal),
            Body::Client(signal) => self.client_signal(signal),
            Body::Chain(signal) => self.chain_signal(signal),
            Body::Membership(signal) => self.membership_signal(signal),
            Body::Takeover(signal) => self.takeover_signal(signal),
            Body::Epoch(signal) => self.epoch_signal(signal),
            Body::Checkpoint(signal) => self.checkpoint_signal(signal),
            Body::File(signal) => self.file_signal(signal),
            Body::Joining(signal) => self.joining_signal(signal),
            Body::Copying(signal) => self.copying_signal(signal),
            Body::Subscription(signal) => self.subscription_signal(signal),
            Body::Backup(signal) => self.backup_signal(signal),
            Body::Unique(signal) => self.unique_signal(signal),
        }
    }
}
