//! What a master orders, and what it tells when a closing has ended.
ghost use Rattle.std.specs.Prelude.{◌≡◌, ◌≤◌};
ghost use Rattle.gcp_master.specs.Orders.{bit_if, has_node, mask_of, order_body};

use sig_core::{Body, CheckpointSignal, EpochSignal, Member};

/// An order, the same for each member.
#[derive(Clone, Copy, Debug, PartialEq, Eq)]
pub enum Order {
    /// Tell how far you are.
    State,
    Prepare { epoch: u64, next: u64 },
    Commit { epoch: u64, next: u64 },
    Close { epoch: u64 },
    Save { epoch: u64 },
    /// The mask has bit n - 1 for each full member n.
    Copy { epoch: u64, mask: u8 },
    Done { epoch: u64 },
    /// Write what you have, for a local checkpoint.
    Walk,
    /// Switch to what you wrote.
    Switch,
}

/// A closing that has ended, and of whose end not all were told yet.
#[derive(Clone, Copy, Debug, PartialEq, Eq)]
pub enum Ended {
    Micro {
        epoch: u64,
    },
    Global {
        epoch: u64,
        /// The copying of this node is to be told.
        copy: bool,
        /// The rows of the full members are to switch to their local checkpoint.
        local: bool,
    },
}

impl Order {
    /// The order as a signal says it.
    #[tactic(auto, unfolding(crate::specs::Orders::order_body))]
    pub fn body(self) -> Body
        ensures { result ≡ order_body self }
    {
        match self {
            Order::State => Body::Epoch(EpochSignal::GcpStateReq),
            Order::Prepare { epoch, next } => {
                Body::Epoch(EpochSignal::GcpPrepare { epoch, next })
            }
            Order::Commit { epoch, next } => Body::Epoch(EpochSignal::GcpCommit { epoch, next }),
            Order::Close { epoch } => Body::Epoch(EpochSignal::GcpClosed { epoch }),
            Order::Save { epoch } => Body::Epoch(EpochSignal::GcpSaveReq { epoch }),
            Order::Copy { epoch, mask } => Body::Epoch(EpochSignal::CopyGciReq { epoch, mask }),
            Order::Done { epoch } => Body::Epoch(EpochSignal::GcpDone { epoch }),
            Order::Walk => Body::Checkpoint(CheckpointSignal::LcpFragOrd),
            Order::Switch => Body::Checkpoint(CheckpointSignal::LcpSwitch),
        }
    }
}

// Whether a node is among the members.
fn has_node(members: &[Member], node: u8) -> bool
    ensures { result ≡ has_node node members.now }
{
    members.iter().any(|member| member.node == node)
}

// The bit of a node, where it is among the members.
fn bit_if(members: &[Member], node: u8, bit: u8) -> u8
    ensures value { result ≡ bit_if members.now node bit }
    ensures most { result ≤ bit }
{
    if has_node(members, node) { bit } else { 0 }
}

/// A mask with bit n - 1 for each node n among the members.
#[tactic(auto, unfolding(crate::specs::Orders::mask_of))]
pub fn mask_of(members: &[Member]) -> u8
    ensures { result ≡ mask_of members.now }
{
    bit_if(members, 1, 1)
        + bit_if(members, 2, 2)
        + bit_if(members, 3, 4)
        + bit_if(members, 4, 8)
        + bit_if(members, 5, 16)
        + bit_if(members, 6, 32)
        + bit_if(members, 7, 64)
        + bit_if(members, 8, 128)
}
