//! Marks: what a step is known by in the log of its host. No block reads one.
use crate::held::Held;
use crate::key::Key;
use crate::member::{HostId, TxId};
use crate::outcome::{Outcome, StopCause};
use crate::seq::Seq;
use crate::view::View;

/// What happened at a step.
#[derive(Drop)]
pub enum Mark {
    /// A replica holds the transaction's image of the row.
    Prepared { tx: TxId, key: Key },
    /// The transaction is decided, and has this epoch.
    Decided { tx: TxId, epoch: u64 },
    /// The primary replica has committed the row.
    Applied { tx: TxId, key: Key },
    /// A replica is done with the transaction's part in the row.
    Done { tx: TxId, key: Key },
    /// The transaction waited for the row's lock too long.
    Expired { tx: TxId, key: Key },
    /// The node promised a view of this number.
    Promised { number: u64 },
    /// The node installed this view.
    Installed { view: Held<View> },
    /// The client was told the transaction's outcome.
    Reported { tx: TxId, outcome: Outcome },
    /// Every transaction up to this epoch survives a stop of all nodes.
    Durable { epoch: u64 },
    /// The host discards what it would send to that host, and what comes from it.
    CutOff { host: HostId },
    /// This node group has no full member left.
    Down { group: u8 },
    /// The host stopped. A host's last mark.
    Stopped { cause: StopCause },
    /// No transaction up to this epoch is unfinished at any member.
    Closed { epoch: u64 },
}

/// The marks of one step, in order.
pub type Marks = Seq<Mark>;
