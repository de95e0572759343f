//! Histories of two cuts, of which one is inside the other.
use crate::decisions::are_writing;
use crate::epochs::Epochs;
use crate::law::{Fault, Law};
use sig_core::Entry;

/// Judges the histories of a cut and of a later one: the later one has what the earlier one has, in its
/// order, and what it has besides doesn't write in an epoch that had ended in the earlier cut.
///
/// # Errors
/// The first of these laws that is broken.
pub fn judge_growth(epochs: &Epochs, earlier: &[Entry], later: &[Entry]) -> Result<(), Fault> {
    let mut at = 0usize;
    for entry in later {
        if is_at(earlier, at, entry) {
            at = at.saturating_add(1);
        } else if is_late(epochs, entry) {
            return Err(Fault::Broken(Law::ClosedIsWhole));
        }
    }
    if at < earlier.len() {
        return Err(Fault::Broken(Law::HistoriesGrow));
    }
    Ok(())
}

// Whether the entry at this place is of the same transaction.
fn is_at(entries: &[Entry], at: usize, entry: &Entry) -> bool {
    match entries.get(at) {
        Some(other) => other.tx == entry.tx,
        None => false,
    }
}

// Whether the entry writes in an epoch that has ended.
fn is_late(epochs: &Epochs, entry: &Entry) -> bool {
    are_writing(entry.ops.as_slice()) && epochs.has_ended(entry.epoch, u64::MAX)
}
