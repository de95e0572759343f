//! Where a signal is for.
ghost use Rattle.std.specs.Prelude.{◌≡◌};
ghost use Rattle.sig_core.specs.Part.{part_of};
ghost use Rattle.sig_core.specs.Place.{backups, checkpoints, coordinator, coordinator_of, copying, epochs, files};
ghost use Rattle.sig_core.specs.Place.{membership, rows_of, subscriptions, takeover};

use crate::member::TxId;

/// A block: a part of a host that handles signals.
#[derive(Clone, Copy, Debug, PartialEq, Eq)]
pub enum BlockId {
    /// The interface to clients, on the shell host.
    Api,
    /// Grants one set of members for each view number, on the shell host.
    Arbiter,
    /// Membership (QMGR).
    Qmgr,
    /// The transaction coordinator (DBTC).
    Tc,
    /// Ends the transactions of coordinators that failed.
    Takeover,
    /// Gives epochs (DBDIH).
    Dih,
    /// Drives global and local checkpoints.
    GcpMaster,
    /// Rows and their locks (DBLQH and DBTUP).
    Lqh,
    /// Copies rows to a node that starts.
    Copy,
    /// The disk of the node.
    Files,
    /// Tells subscribers the changes of closed epochs (SUMA).
    Suma,
    /// Takes backups.
    Backup,
}

/// A part of a data node, which has a host of its own.
#[derive(Clone, Copy, Debug, PartialEq, Eq)]
pub enum Part {
    /// Membership, checkpoints and copying.
    Main,
    /// The coordinator, takeover and epochs.
    Tc,
    /// The rows and the disk, subscriptions and backups.
    Ldm,
}

/// The part of a node that runs a block. No node runs the blocks of the shell host; they count as
/// main ones.
pub fn part_of(block: BlockId) -> Part
    ensures { result ≡ part_of block }
{
    match block {
        BlockId::Tc | BlockId::Takeover | BlockId::Dih => Part::Tc,
        BlockId::Lqh | BlockId::Files | BlockId::Suma | BlockId::Backup => Part::Ldm,
        _ => Part::Main,
    }
}

/// A block of a node. Node 0 is the shell host's.
#[derive(Clone, Copy, Debug, PartialEq, Eq)]
pub struct Place {
    pub node: u8,
    pub block: BlockId,
}

/// The interface to clients, on the shell host.
pub const CLIENT: Place = Place {
    node: 0,
    block: BlockId::Api,
};

/// The block that grants views, on the shell host.
pub const ARBITER: Place = Place {
    node: 0,
    block: BlockId::Arbiter,
};

/// The membership of a node.
pub fn membership(node: u8) -> Place
    ensures { result ≡ membership node }
{
    Place {
        node,
        block: BlockId::Qmgr,
    }
}

/// The coordinator of a node.
pub fn coordinator(node: u8) -> Place
    ensures { result ≡ coordinator node }
{
    Place {
        node,
        block: BlockId::Tc,
    }
}

/// The coordinator of a transaction.
pub fn coordinator_of(tx: TxId) -> Place
    ensures { result ≡ coordinator_of tx }
{
    coordinator(tx.tc)
}

/// The block of a node that gives epochs.
pub fn epochs(node: u8) -> Place
    ensures { result ≡ epochs node }
{
    Place {
        node,
        block: BlockId::Dih,
    }
}

/// The rows of a node.
pub fn rows_of(node: u8) -> Place
    ensures { result ≡ rows_of node }
{
    Place {
        node,
        block: BlockId::Lqh,
    }
}

/// The block of a node that ends the transactions of coordinators that failed.
pub fn takeover(node: u8) -> Place
    ensures { result ≡ takeover node }
{
    Place {
        node,
        block: BlockId::Takeover,
    }
}

/// The block of a node that drives checkpoints.
pub fn checkpoints(node: u8) -> Place
    ensures { result ≡ checkpoints node }
{
    Place {
        node,
        block: BlockId::GcpMaster,
    }
}

/// The block of a node that copies rows to a node that starts.
pub fn copying(node: u8) -> Place
    ensures { result ≡ copying node }
{
    Place {
        node,
        block: BlockId::Copy,
    }
}

/// The disk of a node.
pub fn files(node: u8) -> Place
    ensures { result ≡ files node }
{
    Place {
        node,
        block: BlockId::Files,
    }
}

/// The block of a node that tells subscribers what changed.
pub fn subscriptions(node: u8) -> Place
    ensures { result ≡ subscriptions node }
{
    Place {
        node,
        block: BlockId::Suma,
    }
}

/// The block of a node that takes backups.
pub fn backups(node: u8) -> Place
    ensures { result ≡ backups node }
{
    Place {
        node,
        block: BlockId::Backup,
    }
}
