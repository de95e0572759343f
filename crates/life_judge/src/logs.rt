//! What the log of each host keeps to by itself.
use crate::law::{Fault, Law};
use sig_core::{HostLog, Life, LogStep, Mark};

/// Judges the logs of a life: none goes on behind a stop, and the numbers of the views that a node
/// promises rise along each.
///
/// # Errors
/// The first of these laws that is broken.
pub fn judge_logs(life: &Life) -> Result<(), Fault> {
    for log in life.logs.as_slice() {
        if goes_on(log) {
            return Err(Fault::Broken(Law::NoStepAfterStop));
        }
        if !promises_rise(log) {
            return Err(Fault::Broken(Law::PromisesGrow));
        }
    }
    Ok(())
}

// Whether a step follows one that stopped the host.
fn goes_on(log: &HostLog) -> bool {
    let mut stopped = false;
    for step in log.steps.as_slice() {
        if stopped {
            return true;
        }
        stopped = stops(step);
    }
    false
}

/// Whether the step stopped its host.
pub fn stops(step: &LogStep) -> bool {
    for mark in step.marks.as_slice() {
        if let Mark::Stopped { cause: _ } = mark {
            return true;
        }
    }
    false
}

fn promises_rise(log: &HostLog) -> bool {
    // The first view of a life has number 1, and nobody promises it.
    let mut last = 1;
    for step in log.steps.as_slice() {
        match risen(step, last) {
            Some(number) => last = number,
            None => return false,
        }
    }
    true
}

// The number of the last view that is promised after a step, where that of the last one before it is this; none
// where they don't rise.
fn risen(step: &LogStep, before: u64) -> Option<u64> {
    let mut last = before;
    for mark in step.marks.as_slice() {
        if let Mark::Promised { number } = mark {
            if *number <= last {
                return None;
            }
            last = *number;
        }
    }
    Some(last)
}
