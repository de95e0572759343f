//! Lives, compared with what was told of them.
ghost use Rattle.std.specs.Prelude.{◌≡◌, Decides, IfOk, true};
ghost use Rattle.trace_bytes.specs.Lives.{step_bytes, trace_of};
ghost use Rattle.std.specs.List.{list_any};
ghost use Rattle.trace_check.specs.Answer.{IsFaultAt, IsSameAt, NoneDiffers, TellsSame, any_wants, cause_of, is_want};
ghost use Rattle.trace_check.specs.Histories.{any_shows};

use crate::fault::{StepFault, TraceFault};
use crate::play::step_at;
use sig_core::{HostLog, Life, LogStep, Mark, NoMemory, Shape, StopCause};
use std::alloc::Global;
use trace_merge::RunStep;
use trace_write::{WriteFault, write_step, write_trace};

/// Whether bytes are the trace of a life.
///
/// # Errors
/// `NoMemory`.
pub fn is_trace_of(alloc: Global, bytes: &[u8], shape: Shape, life: &Life) -> Result<bool, NoMemory>
    ensures { IfOk result (λ is. is ≡ true → bytes.now ≡ trace_of shape life.now) }
{
    match write_trace(alloc, shape, life) {
        Ok(written) => Ok(are_same(bytes, written.as_slice())),
        Err(WriteFault::NoMemory) => Err(NoMemory),
        Err(_) => Ok(false),
    }
}

/// The first of these places at which the logs that were made have another step than those that were told, or none; and
/// why, where they have none for this cause.
///
/// # Errors
/// `NoMemory`, also where there is no such place.
pub fn first_fault(
    alloc: Global,
    told: &[HostLog],
    made: &[HostLog],
    run: &[RunStep],
    why: Option<StepFault>,
) -> Result<TraceFault, NoMemory>
    ensures { IfOk result (λ fault. IsFaultAt told.now made.now run.now why fault) }
{
    for place in run {
        if !is_same_at(alloc, told, made, place)? {
            return Ok(TraceFault::NotStep {
                host: place.host,
                step: place.step,
                cause: cause_of(made, place, why),
            });
        }
    }
    Err(NoMemory)
}

// Why the logs that were made differ at a place, where what they do ended for this cause.
fn cause_of(made: &[HostLog], place: &RunStep, why: Option<StepFault>) -> StepFault
    ensures { result ≡ cause_of made.now place.now why }
{
    if step_at(made, place).is_some() {
        return StepFault::Other;
    }
    match why {
        Some(why) => why,
        None => StepFault::Other,
    }
}

// Whether the steps at a place have the same bytes.
fn is_same_at(
    alloc: Global,
    told: &[HostLog],
    made: &[HostLog],
    place: &RunStep,
) -> Result<bool, NoMemory>
    ensures { IfOk result (λ same. TellsSame told.now made.now place.now same) }
{
    match step_at(told, place) {
        Some(one) => match step_at(made, place) {
            Some(other) => has_same_bytes(alloc, one, other),
            None => Ok(false),
        },
        None => Ok(false),
    }
}

// Whether steps have the same bytes.
fn has_same_bytes(alloc: Global, one: &LogStep, other: &LogStep) -> Result<bool, NoMemory>
    ensures { IfOk result (λ same. Decides same (step_bytes one.now ≡ step_bytes other.now)) }
{
    let one = write_step(alloc, one)?;
    let other = write_step(alloc, other)?;
    Ok(are_same(one.as_slice(), other.as_slice()))
}

// Whether bytes are the same.
fn are_same(one: &[u8], other: &[u8]) -> bool
    ensures { Decides result (one.now ≡ other.now) }
{
    one == other
}

/// Whether a host of these logs stopped for want of memory.
pub fn have_wanted(logs: &[HostLog]) -> bool
    ensures { result ≡ any_wants logs.now }
{
    for log in logs {
        if has_wanted(log.steps.as_slice()) {
            return true;
        }
    }
    false
}

fn has_wanted(steps: &[LogStep]) -> bool
    ensures { result ≡ any_shows is_want steps.now }
{
    for step in steps {
        if tell_want(step.marks.as_slice()) {
            return true;
        }
    }
    false
}

fn tell_want(marks: &[Mark]) -> bool
    ensures { result ≡ list_any is_want marks.now }
{
    for mark in marks {
        if is_want(mark) {
            return true;
        }
    }
    false
}

fn is_want(mark: &Mark) -> bool
    ensures { result ≡ is_want mark.now }
{
    match mark {
        Mark::Stopped {
            cause: StopCause::Memory,
        } => true,
        _ => false,
    }
}
