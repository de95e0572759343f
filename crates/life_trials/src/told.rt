//! What a run came to.

use crate::stopped::Stopped;

/// How many lives a run on disks has.
pub const LIVES: usize = 5;

/// What a run came to, where it breaks no law.
#[derive(Clone, Copy)]
pub enum Told {
    /// A life that stands alone, or is of the table.
    Alone,
    /// Lives on disks of so many nodes: how many local checkpoints were reported, with which epochs the lives began,
    /// as checkpoint numbers, and with how many rows.
    Restored {
        nodes: u8,
        checkpoints: u64,
        epochs: [u64; LIVES],
        rows: [usize; LIVES],
    },
    /// Lives on disks of so many nodes: in how many runs of them a call failed, and how many calls of a disk there are
    /// at most where none fails.
    Fused {
        nodes: u8,
        fuses: u64,
        calls: u64,
    },
}

impl Told {
    /// Prints it, for the run of a seed.
    ///
    /// # Errors
    /// As of a write, or want of memory.
    pub fn tell(&self, rt: &HostRuntime, seed: u64) -> Result<(), Stopped> {
        match self {
            Told::Alone => {}
            Told::Restored {
                nodes,
                checkpoints,
                epochs,
                rows,
            } => println!(rt;
                "run {seed}: {nodes} nodes, {checkpoints} local checkpoints, restored {epochs:?} with rows {rows:?}"
            )?,
            Told::Fused {
                nodes,
                fuses,
                calls,
            } => println!(rt;
                "run {seed}: {nodes} nodes, {fuses} fuses, {calls} calls of a disk at most"
            )?,
        }
        Ok(())
    }
}
