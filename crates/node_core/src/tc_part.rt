//! The part of a node that coordinates transactions.

use crate::dih::Dih;
use tc_block::Tc;

/// The blocks of a node's coordinating part: the coordinator, and the block that gives epochs.
#[derive(Drop)]
pub struct TcPart {
    tc: Tc,
    dih: Dih,
}
