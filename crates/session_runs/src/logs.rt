//! What logs of lives tell.
use crate::fault::Fault;
use crate::play::add;
use sig_core::{HostLog, Life, Mark};
use std::alloc::Global;

/// Tells of each life how it began, and of each of its hosts how many steps it made, and which kinds of
/// marks stand there.
pub fn tell_lives(alloc: Global, lives: &[Life], text: &mut Vec<u8>) -> Result<(), Fault> {
    for life in lives {
        let rows = life.start_rows.len();
        add(
            text,
            &format!(in alloc; "life from {} with rows {rows}\n", life.start_epoch)?,
        )?;
        let mut host = 0u32;
        for log in life.logs.as_slice() {
            tell_log(alloc, host, log, text)?;
            host = host.saturating_add(1);
        }
    }
    Ok(())
}

fn tell_log(alloc: Global, host: u32, log: &HostLog, text: &mut Vec<u8>) -> Result<(), Fault> {
    let steps = log.steps.len();
    add(text, &format!(in alloc; "host {host} steps {steps}")?)?;
    for kind in ["prepared", "decided", "done", "reported"] {
        if has_mark(log, kind) {
            add(text, " ")?;
            add(text, kind)?;
        }
    }
    add(text, "\n")
}

// Whether a step of the log has a mark of this kind.
fn has_mark(log: &HostLog, kind: &str) -> bool {
    for step in log.steps.as_slice() {
        for mark in step.marks.as_slice() {
            if kind_of(mark) == kind {
                return true;
            }
        }
    }
    false
}

fn kind_of(mark: &Mark) -> &str {
    match mark {
        Mark::Prepared { .. } => "prepared",
        Mark::Decided { .. } => "decided",
        Mark::Done { .. } => "done",
        Mark::Reported { .. } => "reported",
        _ => "other",
    }
}
