//! A cluster whose nodes have disks, life after life.
#![tactic(auto)]

mod disk_world;
mod ended;
mod keep;
mod laws;

pub use disk_world::DiskWorld;
pub use ended::{Ended, Unopened};
pub use laws::{checkpoints_are_of_their_steps, rows_step_with_their_saver};
