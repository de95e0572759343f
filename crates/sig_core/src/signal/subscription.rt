//! Signals by which subscribers are told the changes of closed epochs.
use crate::change::Change;
use crate::held::Held;
use crate::seq::Seq;

/// Signals by which subscribers are told the changes of closed epochs.
#[derive(Drop)]
pub enum SubscriptionSignal {
    /// A replica has committed a row in this epoch.
    SumaChange {
        epoch: u64,
        change: Held<Change>,
    },
    /// The rows of the node have noted this epoch as closed.
    SumaClosed {
        epoch: u64,
    },
    /// Changes of a fragment in an epoch, at most eight, from place `at` of the list of all. `last`:
    /// none are left.
    SubData {
        epoch: u64,
        fragment: u8,
        at: u64,
        changes: Seq<Change>,
        last: bool,
    },
    /// All changes of this epoch have come to the client's side.
    SubAck {
        epoch: u64,
    },
    /// A joining waits until the changes of this epoch have been acknowledged.
    SumaWait {
        epoch: u64,
    },
    SumaReady {
        epoch: u64,
    },
}
