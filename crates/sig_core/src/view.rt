//! The shape of a cluster, and its views.
use crate::members::Members;

/// How a cluster is laid out: 1 to 8 nodes, 1 to 4 replicas of each row, which divide the number
/// of nodes, and 1 to 32 fragments.
#[derive(Clone, Copy, Debug, PartialEq, Eq)]
pub struct Shape {
    pub nodes: u8,
    pub replicas: u8,
    pub fragments: u8,
}

/// Who belongs to the cluster: a number that rises with each view, the full members and the
/// starting members, each in order of age.
#[derive(Clone, Copy)]
pub struct View {
    pub number: u64,
    pub full: Members,
    pub starting: Members,
}
