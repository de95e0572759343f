//! What is left of a life that ended, and of one that didn't begin.
use host_io::Disk;
use sig_core::{Life, RestartFault};

/// What is left of a life: the logs of its hosts, and the disks of its nodes, that of node 1 first.
#[derive(Drop)]
pub struct Ended<D: Disk> {
    pub life: Life,
    pub disks: Vec<D>,
}

/// A life that didn't begin: why, and the disks that it was to begin on, in their order.
#[derive(Drop)]
pub struct Unopened<D: Disk> {
    pub fault: RestartFault,
    pub disks: Vec<D>,
}
