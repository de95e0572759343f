//! Where the steps of a life stand in its trace.
use sig_core::{HostLog, Life, LogStep, Mark, NoMemory};
use std::alloc::Global;
use trace_write::write_step;

/// When a step of a life is made: by its stamp, then by its host, then by its number in the log.
#[derive(Clone, Copy, PartialEq, Eq, PartialOrd, Ord)]
pub struct Moment {
    pub stamp: u64,
    pub host: u32,
    pub step: usize,
}

/// What the last mark of a step ends with.
#[derive(Clone, Copy, PartialEq, Eq)]
pub enum LastMark {
    None,
    /// The epoch of a transaction that was decided.
    Epoch,
    Other,
}

/// A step in a trace.
#[derive(Clone, Copy)]
pub struct StepPlace {
    /// The place of the log among the logs, which is the number of its host.
    pub log: u32,
    /// Its number in the log, from 0.
    pub step: usize,
    pub stamp: u64,
    pub mark: LastMark,
    /// Where the number of the log's steps stands, in eight bytes.
    pub count_at: usize,
    /// Where the step begins.
    pub from: usize,
    /// Where it ends.
    pub to: usize,
}

impl StepPlace {
    /// When the step is made.
    pub fn moment(&self) -> Moment {
        Moment {
            stamp: self.stamp,
            host: self.log,
            step: self.step,
        }
    }

    /// Whether the byte at this place is of the step.
    pub fn has(&self, at: usize) -> bool {
        self.from <= at && at < self.to
    }
}

/// When the step of this number of a host is made; None where the life has no such step.
pub fn moment_of(life: &Life, host: u32, step: usize) -> Option<Moment> {
    let log = life.logs.as_slice().get(host as usize)?;
    let stamp = log.steps.as_slice().get(step)?.stamp;
    Some(Moment { stamp, host, step })
}

// The shape, the start epoch, and the numbers of rows and of logs, in a life that begins without rows.
const HEAD: usize = 3 + 8 + 8 + 8;

// The host of a log, when it was made, and the number of its steps.
const LOG_HEAD: usize = 4 + 8 + 8;

/// All steps of a life that begins without rows.
///
/// # Errors
/// `NoMemory`.
pub fn places(alloc: Global, life: &Life) -> Result<Vec<StepPlace>, NoMemory> {
    let mut places = Vec::new(alloc);
    let mut at = HEAD;
    let mut number = 0u32;
    for log in life.logs.as_slice() {
        at = add_log(alloc, &mut places, number, at, log)?;
        number = number.saturating_add(1);
    }
    Ok(places)
}

// Adds the steps of a log that begins here. Says where it ends.
fn add_log(
    alloc: Global,
    places: &mut Vec<StepPlace>,
    log: u32,
    begin: usize,
    told: &HostLog,
) -> Result<usize, NoMemory> {
    let behind = begin.saturating_add(LOG_HEAD);
    let mut from = behind;
    let mut number = 0usize;
    for step in told.steps.as_slice() {
        let to = from.saturating_add(write_step(alloc, step)?.len());
        places.push(StepPlace {
            log,
            step: number,
            stamp: step.stamp,
            mark: last_mark(step),
            count_at: behind.saturating_sub(8),
            from,
            to,
        })?;
        from = to;
        number = number.saturating_add(1);
    }
    Ok(from)
}

fn last_mark(step: &LogStep) -> LastMark {
    match step.marks.as_slice().last() {
        Some(Mark::Decided { tx: _, epoch: _ }) => LastMark::Epoch,
        Some(_) => LastMark::Other,
        None => LastMark::None,
    }
}

/// Whether the life can't be without the step: another one took what it sent, or the next one of its log took a signal
/// of the same link.
pub fn is_heard(life: &Life, step: &StepPlace) -> bool {
    for log in life.logs.as_slice() {
        if hears(log.steps.as_slice(), log.host.0, step) {
            return true;
        }
    }
    false
}

// Whether these steps of a host show that.
fn hears(steps: &[LogStep], host: u32, step: &StepPlace) -> bool {
    if host == step.log {
        return are_linked(
            steps.get(step.step),
            steps.get(step.step.saturating_add(1)),
            host,
        );
    }
    for other in steps {
        if took(other, step) {
            return true;
        }
    }
    false
}

// Whether both steps of a host took signals of one link from another.
fn are_linked(one: Option<&LogStep>, other: Option<&LogStep>, host: u32) -> bool {
    match one {
        Some(one) => match other {
            Some(other) => sender(one) == sender(other) && sender(one) != host,
            None => false,
        },
        None => false,
    }
}

// The host whose signal a step took.
fn sender(step: &LogStep) -> u32 {
    step.taken.get().from.0
}

fn took(taker: &LogStep, step: &StepPlace) -> bool {
    sender(taker) == step.log && taker.taken.get().stamp == step.stamp
}
