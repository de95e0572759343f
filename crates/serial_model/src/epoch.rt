//! Cutting a list of entries to an epoch.
ghost use Rattle.std.specs.Prelude.{◌≡◌, IfOk};
ghost use Rattle.serial_model.specs.Epoch.{up_to_epoch};

use sig_core::{Entry, NoMemory, Seq};
use std::alloc::Global;

/// Copies of the entries whose epoch isn't above the given one, in order.
///
/// # Errors
/// `NoMemory`.
pub fn cut_to_epoch(alloc: Global, entries: &[Entry], epoch: u64) -> Result<Vec<Entry>, NoMemory>
    ensures { IfOk result (λ kept. kept.items ≡ up_to_epoch epoch entries.now) }
{
    let mut kept = Vec::new(alloc);
    for entry in entries {
        if entry.epoch <= epoch {
            kept.push(copied(alloc, entry)?)?;
        }
    }
    Ok(kept)
}

/// A copy of an entry.
///
/// # Errors
/// `NoMemory`.
fn copied(alloc: Global, entry: &Entry) -> Result<Entry, NoMemory>
    ensures { IfOk result (λ copy. copy ≡ entry.now) }
{
    let ops = Vec::from_slice(alloc, entry.ops.as_slice())?;
    Ok(Entry {
        tx: entry.tx,
        view: entry.view,
        stamp: entry.stamp,
        host: entry.host,
        epoch: entry.epoch,
        ops: Seq::from_vec(ops),
    })
}
