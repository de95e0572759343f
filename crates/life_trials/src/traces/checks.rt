//! Traces of lives, checked against the machine: as they are, and with a step left out, doubled or moved to another
//! host, another stamp, mark or epoch, or any byte changed.
mod edits;
mod lives;
mod places;
mod trials;

use crate::fault::RunFault;
use crate::stopped::Stopped;
use crate::traces::tell_tried;
use lives::{Failing, trace_alone, trace_of_pair};
use places::{StepPlace, places};
use sig_core::{Life, NoMemory};
use std::alloc::Global;
use std::sync::Wait;
use trace_read::read_trace;
use trials::{
    Verdict, bears_bytes, bears_doubles, bears_epochs, bears_losses, bears_marks, bears_moves,
    bears_stamps, is_refused, judge,
};

// Of so many steps of a life one is changed.
const EVERY: usize = 7;

// Those of the steps that are changed.
fn some_of(alloc: Global, steps: &[StepPlace]) -> Result<Vec<StepPlace>, NoMemory> {
    let mut some = Vec::new(alloc);
    for at in 0..steps.len() {
        if at % EVERY == 0 {
            some.push(steps[at])?;
        }
    }
    Ok(some)
}

// A life bears what is done to some of its steps, and to all.
fn bears_all(
    alloc: Global,
    bytes: &[u8],
    life: &Life,
    steps: &[StepPlace],
    all: &[StepPlace],
) -> Result<bool, NoMemory> {
    Ok(
        bears_losses(alloc, bytes, life, steps)?
            && bears_doubles(alloc, bytes, steps)?
            && bears_moves(alloc, bytes, steps)?
            && bears_stamps(alloc, bytes, steps)?
            && bears_marks(alloc, bytes, steps)?
            && bears_epochs(alloc, bytes, all)?,
    )
}

// The life of a trace, with its steps, bears what is done to them.
fn bears_edits(alloc: Global, bytes: &[u8], life: &Life) -> Result<bool, NoMemory> {
    let all = places(alloc, life)?;
    let some = some_of(alloc, all.as_slice())?;
    bears_all(alloc, bytes, life, some.as_slice(), all.as_slice())
}

// So does the trace of a life, if it is one.
fn trace_bears_edits(alloc: Global, bytes: &[u8]) -> Result<bool, NoMemory> {
    match read_trace(alloc, bytes) {
        Ok((_, life)) => bears_edits(alloc, bytes, &life),
        Err(trace_read::TraceFault::NoMemory) => Err(NoMemory),
        Err(trace_read::TraceFault::NotTrace { at: _ }) => Ok(false),
    }
}

// No byte of a step of a life can be another one.
fn is_fixed(alloc: Global, bytes: &[u8]) -> Result<bool, NoMemory> {
    match read_trace(alloc, bytes) {
        Ok((_, life)) => bears_bytes(alloc, bytes, places(alloc, &life)?.as_slice()),
        Err(trace_read::TraceFault::NoMemory) => Err(NoMemory),
        Err(trace_read::TraceFault::NotTrace { at: _ }) => Ok(false),
    }
}

// The trace is that of a life with transactions in its history, and its steps are as they have to be.
fn is_judged(alloc: Global, bytes: &[u8]) -> Result<bool, NoMemory> {
    match judge(alloc, bytes)? {
        Verdict::Right(count) => Ok(count > 0 && trace_bears_edits(alloc, bytes)?),
        _ => Ok(false),
    }
}

// The lives of a pair that are tried.
const LIVES: [Failing; 6] = [
    Failing::Nothing,
    Failing::Kill,
    Failing::Cut,
    Failing::Stop(0),
    Failing::CutOff,
    Failing::Disk,
];

fn try_pair<W: Wait>(wait: &W, alloc: Global, failing: Failing) -> Result<bool, RunFault> {
    let bytes = trace_of_pair(wait, alloc, failing)?;
    Ok(is_judged(alloc, bytes.as_slice())?)
}

fn try_loss<W: Wait>(wait: &W, alloc: Global) -> Result<bool, RunFault> {
    let bytes = trace_of_pair(wait, alloc, Failing::Stop(1))?;
    Ok(is_refused(alloc, bytes.as_slice())?)
}

fn try_bytes<W: Wait>(wait: &W, alloc: Global) -> Result<bool, RunFault> {
    let bytes = trace_alone(wait, alloc)?;
    Ok(is_fixed(alloc, bytes.as_slice())?)
}

// What a trial of such a life is called.
fn name_of(failing: Failing) -> &'static str {
    match failing {
        Failing::Nothing => "a life in which nothing fails is checked",
        Failing::Kill => "one in which a node is killed",
        Failing::Cut => "one in which nodes are cut off",
        Failing::Stop(_) => "one in which a host stops",
        Failing::CutOff => "one in which a host cuts off a node",
        Failing::Disk => "one in which a disk fails",
    }
}

/// What is tried of traces and the machine: lives, and what becomes of each when it is changed.
///
/// # Errors
/// Want of memory, or of room to print.
pub fn try_checks<W: Wait>(rt: &HostRuntime, wait: &W, failed: &mut bool) -> Result<(), Stopped> {
    for failing in LIVES {
        let tried = try_pair(wait, rt.alloc(), failing);
        tell_tried(rt, name_of(failing), tried, failed)?;
    }
    let tried = try_loss(wait, rt.alloc());
    tell_tried(rt, "what a stop loses is missed", tried, failed)?;
    let tried = try_bytes(wait, rt.alloc());
    tell_tried(rt, "each byte of a step is checked", tried, failed)
}
