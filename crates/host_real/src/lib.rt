//! The outside as it is: standard input and output, and files in a folder. Each object counts its
//! faults and tells no content, since what a real file holds is known to nobody but the system.
#![tactic(auto)]

mod folder_disk;
mod standard;

pub use folder_disk::FolderDisk;
pub use standard::{StdSink, StdSource};
