//! The outside of the kernel: where it reads, where it writes, its disks, and what may watch it.
#![tactic(auto)]

mod dirty;
mod disk;
mod gate;
mod journal;
mod laws;
mod limits;
mod mem_disk;
mod mem_file;
mod place;
mod sink;
mod source;

pub use dirty::DirtyRange;
pub use disk::Disk;
pub use gate::{Gate, NoGate};
pub use laws::{a_disk_reads_as_an_image, what_is_synced_is_kept};
pub use limits::{FILE_SIZE, FILES};
pub use mem_disk::MemDisk;
pub use place::has_place;
pub use sink::{MemSink, Sink};
pub use source::{MemSource, Source};

/// A call on the outside failed. The count of faults of the object that was called has then risen,
/// or stands at its end.
#[derive(Clone, Copy, Debug, PartialEq, Eq)]
pub struct Failed;
