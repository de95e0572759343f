//! Epochs: along the history, and those that were told closed or durable.
use crate::decisions::Decisions;
use crate::law::{Fault, Law};
use crate::moment::Moment;
use sig_core::{Entry, Mark};
use std::alloc::Global;

/// An epoch, and the stamp of the step that tells of it.
#[derive(Clone, Copy)]
struct Ending {
    stamp: u64,
    epoch: u64,
}

/// What a cut tells of closed and durable epochs.
#[derive(Drop)]
pub struct Epochs {
    closed: Vec<Ending>,
    durable: Vec<Ending>,
}

impl Epochs {
    /// None yet.
    pub fn new(alloc: Global) -> Epochs {
        Epochs {
            closed: Vec::new(alloc),
            durable: Vec::new(alloc),
        }
    }

    /// A mark of a step.
    ///
    /// # Errors
    /// `NoMemory`.
    pub fn add_mark(&mut self, moment: &Moment, mark: &Mark) -> Result<(), Fault> {
        match mark {
            Mark::Closed { epoch } => self.closed.push(Ending {
                stamp: moment.stamp,
                epoch: *epoch,
            })?,
            Mark::Durable { epoch } => self.durable.push(Ending {
                stamp: moment.stamp,
                epoch: *epoch,
            })?,
            _ => {}
        }
        Ok(())
    }

    /// Whether that epoch or a later one was told closed or durable, before this stamp.
    pub fn has_ended(&self, epoch: u64, stamp: u64) -> bool {
        is_among(self.closed.as_slice(), epoch, stamp)
            || is_among(self.durable.as_slice(), epoch, stamp)
    }

    /// Whether an epoch behind this one was told durable.
    pub fn is_durable_behind(&self, epoch: u64) -> bool {
        for durable in self.durable.as_slice() {
            if epoch < durable.epoch {
                return true;
            }
        }
        false
    }
}

fn is_among(endings: &[Ending], epoch: u64, stamp: u64) -> bool {
    for ending in endings {
        if epoch <= ending.epoch && ending.stamp < stamp {
            return true;
        }
    }
    false
}

/// Judges the epochs of a cut: they don't fall along the history, nothing that writes is first applied
/// behind the end of its epoch, and a durable epoch was closed before.
///
/// # Errors
/// The first of these laws that is broken.
pub fn judge_epochs(
    epochs: &Epochs,
    decisions: &Decisions,
    history: &[Entry],
) -> Result<(), Fault> {
    if falls(history) {
        return Err(Fault::Broken(Law::EpochsGrow));
    }
    for entry in history {
        if is_late(epochs, decisions, entry) {
            return Err(Fault::Broken(Law::ClosedIsWhole));
        }
    }
    for durable in epochs.durable.as_slice() {
        if !was_closed(epochs.closed.as_slice(), durable) {
            return Err(Fault::Broken(Law::DurableIsClosed));
        }
    }
    Ok(())
}

fn falls(history: &[Entry]) -> bool {
    let mut last = 0;
    for entry in history {
        if entry.epoch < last {
            return true;
        }
        last = entry.epoch;
    }
    false
}

fn is_late(epochs: &Epochs, decisions: &Decisions, entry: &Entry) -> bool {
    match decisions.applied(&entry.tx) {
        Some(first) => epochs.has_ended(entry.epoch, first),
        None => false,
    }
}

fn was_closed(closed: &[Ending], durable: &Ending) -> bool {
    for ending in closed {
        if ending.epoch == durable.epoch && ending.stamp < durable.stamp {
            return true;
        }
    }
    false
}
