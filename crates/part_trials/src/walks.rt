//! Random runs of local checkpoints: rows are written while a walk passes them, and what it wrote, with the log behind
//! it, is held against a plain list of what was committed. A run is made of its seed alone, so one that fails can be
//! had again.
mod fault;
mod node;
mod plain;
mod run;

use crate::stopped::Stopped;
use fault::RunFault;

/// Does so many runs, the first of this seed, and prints how many faults there were. Says whether there was none.
///
/// # Errors
/// A line that isn't written.
pub fn try_all(rt: &HostRuntime, first: u64, count: u64) -> Result<bool, Stopped> {
    let mut faults = 0u64;
    for more in 0..count {
        let seed = first.wrapping_add(more);
        if let Err(fault) = run::run_one(rt.alloc(), seed) {
            faults = faults.saturating_add(1);
            println!(rt; "run {seed}: {}", told(fault))?;
        }
    }
    println!(rt; "{count} runs from {first}: {faults} faults")?;
    Ok(faults == 0)
}

fn told(fault: RunFault) -> &'static str {
    match fault {
        RunFault::Rows => "the checkpoint and the log give other rows than were committed",
        RunFault::Damaged => "the checkpoint or the log can't be read",
        RunFault::Pieces => "a piece doesn't lie where the one before ends",
        RunFault::Full => "the log or the rows are full",
        RunFault::Word => "a word that was drawn is none",
        RunFault::NoMemory => "out of memory",
    }
}
