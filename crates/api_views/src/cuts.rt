//! Pairs of nodes that are cut from each other.

/// A pair of nodes that was asked to be cut.
#[derive(Clone, Copy)]
pub struct CutPair {
    /// The node whose hosts discard what goes to and comes from the other.
    pub one: u8,
    pub other: u8,
}
