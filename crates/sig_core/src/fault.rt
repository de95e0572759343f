//! Why what a disk has isn't read.
use crate::view::Shape;

/// Why something isn't read from a disk.
#[derive(Clone, Copy, Debug, PartialEq, Eq)]
pub enum ReadFault {
    /// A call on the disk failed, whose count of faults is this.
    DiskFault { count: u64 },
    /// The byte at this place of this file is the first that doesn't fit; of a number it is the first
    /// byte. It is 0 where the bytes end before it.
    Damaged { file: u8, at: u64, byte: u8 },
    NoMemory,
}

/// Why a life isn't restored from disks, or isn't prepared on them.
#[derive(Clone, Copy, Debug, PartialEq, Eq)]
pub enum RestartFault {
    /// A call on the disk of this node failed, whose count of faults is this.
    DiskFault {
        node: u8,
        count: u64,
    },
    /// The disks have a cluster of another shape than is asked for.
    OtherShape {
        found: Shape,
        asked: Shape,
    },
    /// As of `ReadFault`, on the disk of this node.
    Damaged {
        node: u8,
        file: u8,
        at: u64,
        byte: u8,
    },
    /// No life can follow one of this generation that restores this epoch.
    UsedUp {
        generation: u64,
        epoch: u64,
    },
    NoMemory,
}
