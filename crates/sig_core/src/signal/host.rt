//! Signals that any block may take.
use crate::member::{HostId, TxId};
use crate::outcome::StopCause;
use crate::request::ApiReq;

/// Work that a block goes on with in a later event.
#[derive(Drop)]
pub enum Work {
    /// A request of the shell, to the API.
    Request(ApiReq),
    /// Sends of this transaction that are left.
    Transaction(TxId),
    /// What an installation of a view left to do.
    Installation,
    /// Requests that were held back.
    Held,
    /// Waits for a lock that were granted.
    Granted,
    /// Waits for a lock that stood too long.
    Expired,
    /// Records and markers to report to a takeover.
    Report,
    /// Sends to a list of members.
    Members,
    /// Pieces of the journal.
    Flush,
    /// Rows of a local checkpoint.
    Walk,
    /// Changes of this epoch to tell subscribers.
    Changes(u64),
}

/// Signals that any block may take.
#[derive(Drop)]
pub enum HostSignal {
    /// A round of time has passed.
    Round,
    /// Stop once this many further signals are taken.
    Kill { after: u32 },
    /// Discard what goes to and comes from the node's hosts, of which this is the first.
    Cut { node: u8, first: HostId },
    /// The last signal of a link: the host at its other end stopped.
    Closed { cause: StopCause },
    /// Go on with this work, from this place.
    Continue { work: Work, at: u64 },
}
