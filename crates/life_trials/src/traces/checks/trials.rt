//! What becomes of a trace that is changed.
use super::edits::{changed, doubled, left_out, marked, moved};
use super::places::{LastMark, Moment, StepPlace, is_heard, moment_of};
use sig_core::{HostId, Life, NoMemory};
use std::alloc::Global;
use trace_check::{TraceFault, check};
use trace_read::read_trace;

/// What a check says of a trace.
#[derive(Clone, Copy, PartialEq, Eq)]
pub enum Verdict {
    /// The machine allows its life, in whose history there are so many transactions.
    Right(usize),
    /// The machine doesn't make the step of this moment.
    Refused(Moment),
    /// It is no trace, or its logs aren't one for each host.
    Unread,
}

/// What a check says of these bytes.
///
/// # Errors
/// `NoMemory`, as of all that follow.
pub fn judge(alloc: Global, bytes: &[u8]) -> Result<Verdict, NoMemory> {
    match check(alloc, bytes) {
        Ok(found) => Ok(Verdict::Right(found.history.len())),
        Err(
            TraceFault::NotStep {
                host,
                step,
                cause: _,
            },
        ) => refused_at(alloc, bytes, host, step),
        Err(TraceFault::NoMemory) => Err(NoMemory),
        Err(_) => Ok(Verdict::Unread),
    }
}

// The refusal of a step that these bytes tell.
fn refused_at(alloc: Global, bytes: &[u8], host: HostId, step: usize) -> Result<Verdict, NoMemory> {
    match read_trace(alloc, bytes) {
        Ok((_, life)) => match moment_of(&life, host.0, step) {
            Some(moment) => Ok(Verdict::Refused(moment)),
            None => Ok(Verdict::Unread),
        },
        Err(trace_read::TraceFault::NoMemory) => Err(NoMemory),
        Err(trace_read::TraceFault::NotTrace { at: _ }) => Ok(Verdict::Unread),
    }
}

// Whether a step is refused that isn't before this moment.
fn is_refused_from(came: Verdict, first: Moment) -> bool {
    match came {
        Verdict::Refused(at) => first <= at,
        _ => false,
    }
}

/// Each of these steps left out in turn: one is refused, not before it, if the life can't be without it.
pub fn bears_losses(
    alloc: Global,
    bytes: &[u8],
    life: &Life,
    steps: &[StepPlace],
) -> Result<bool, NoMemory> {
    for step in steps {
        let edited = left_out(alloc, bytes, step)?;
        let came = judge(alloc, edited.as_slice())?;
        if is_heard(life, step) && !is_refused_from(came, step.moment()) {
            return Ok(false);
        }
    }
    Ok(true)
}

/// Each of them doubled: the second one is refused.
pub fn bears_doubles(alloc: Global, bytes: &[u8], steps: &[StepPlace]) -> Result<bool, NoMemory> {
    for step in steps {
        let edited = doubled(alloc, bytes, step)?;
        let mut second = step.moment();
        second.step = second.step.saturating_add(1);
        if judge(alloc, edited.as_slice())? != Verdict::Refused(second) {
            return Ok(false);
        }
    }
    Ok(true)
}

/// Each of them moved in front of the first one of the next log that has one: one is refused.
pub fn bears_moves(alloc: Global, bytes: &[u8], steps: &[StepPlace]) -> Result<bool, NoMemory> {
    for step in steps {
        if let Some(before) = next_log(steps, step.log) {
            let edited = moved(alloc, bytes, step, before)?;
            let first = earlier(step.moment(), before.moment());
            if !is_refused_from(judge(alloc, edited.as_slice())?, first) {
                return Ok(false);
            }
        }
    }
    Ok(true)
}

fn earlier(one: Moment, other: Moment) -> Moment {
    if one <= other { one } else { other }
}

// The first of these steps that is of a later log.
fn next_log(steps: &[StepPlace], log: u32) -> Option<&StepPlace> {
    for step in steps {
        if step.log > log {
            return Some(step);
        }
    }
    None
}

/// Another stamp on each of them: one is refused, not before the lower stamp.
pub fn bears_stamps(alloc: Global, bytes: &[u8], steps: &[StepPlace]) -> Result<bool, NoMemory> {
    for step in steps {
        let edited = changed(alloc, bytes, step.from.saturating_add(7), 1)?;
        let mut first = step.moment();
        first.stamp = first.stamp.min(first.stamp ^ 1);
        if !is_refused_from(judge(alloc, edited.as_slice())?, first) {
            return Ok(false);
        }
    }
    Ok(true)
}

/// A mark more on each of them that has none: it is refused.
pub fn bears_marks(alloc: Global, bytes: &[u8], steps: &[StepPlace]) -> Result<bool, NoMemory> {
    for step in steps {
        if step.mark == LastMark::None {
            let edited = marked(alloc, bytes, step)?;
            if judge(alloc, edited.as_slice())? != Verdict::Refused(step.moment()) {
                return Ok(false);
            }
        }
    }
    Ok(true)
}

/// Another epoch of each transaction that one of them decides: it is refused. Where none decides one that isn't so.
pub fn bears_epochs(alloc: Global, bytes: &[u8], steps: &[StepPlace]) -> Result<bool, NoMemory> {
    let mut some = false;
    for step in steps {
        if step.mark == LastMark::Epoch {
            some = true;
            let edited = changed(alloc, bytes, step.to.saturating_sub(1), 1)?;
            if judge(alloc, edited.as_slice())? != Verdict::Refused(step.moment()) {
                return Ok(false);
            }
        }
    }
    Ok(some)
}

// What is put over a byte.
const FLIPS: [u8; 2] = [1, 128];

/// Each byte changed in turn: no such trace is right where the byte is of one of these steps.
pub fn bears_bytes(alloc: Global, bytes: &[u8], steps: &[StepPlace]) -> Result<bool, NoMemory> {
    for at in 0..bytes.len() {
        for flip in FLIPS {
            let edited = changed(alloc, bytes, at, flip)?;
            let came = judge(alloc, edited.as_slice())?;
            if is_of(steps, at) && is_right(came) {
                return Ok(false);
            }
        }
    }
    Ok(true)
}

fn is_right(came: Verdict) -> bool {
    match came {
        Verdict::Right(_) => true,
        _ => false,
    }
}

/// A step of the life is refused.
pub fn is_refused(alloc: Global, bytes: &[u8]) -> Result<bool, NoMemory> {
    match judge(alloc, bytes)? {
        Verdict::Refused(_) => Ok(true),
        _ => Ok(false),
    }
}

fn is_of(steps: &[StepPlace], at: usize) -> bool {
    for step in steps {
        if step.has(at) {
            return true;
        }
    }
    false
}
