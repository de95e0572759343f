//! Traces, tried out: a life worked out by hand; each kind of signal, mark, work, request and line; each byte
//! changed, and each trace cut short at each length. Of each trial it is printed whether it came out.
mod bearing;
mod checks;
mod kinds;
mod life;

use crate::fault::RunFault;
use crate::stopped::Stopped;
use bearing::{bears_changes, bears_cuts, fault_of, is_written_again};
use checks::try_checks;
use kinds::bear_kinds;
use life::{SHAPE, STEP, STEP_END, TRACE, a_life, a_step, found_slots};
use sig_core::{NoMemory, Own, Table};
use std::alloc::Global;
use std::sync::Wait;
use trace_write::{WriteFault, write_step, write_trace};

// The life has its bytes, and they are read as it.
fn is_told(alloc: Global) -> Result<bool, RunFault> {
    let life = a_life(alloc, found_slots())?;
    let Ok(bytes) = write_trace(alloc, SHAPE, &life) else {
        return Ok(false);
    };
    Ok(bytes.as_slice() == TRACE.as_slice() && is_written_again(alloc, &TRACE)?)
}

// Its only step has the bytes that stand for it there.
fn is_told_alone(alloc: Global) -> Result<bool, RunFault> {
    let step = a_step(alloc)?;
    let bytes = write_step(alloc, &step)?;
    Ok(bytes.as_slice() == &TRACE[STEP..STEP_END])
}

// Rows of a node's own are told in no trace.
fn refuses_own_rows(alloc: Global) -> Result<bool, RunFault> {
    let mut slots = found_slots();
    slots.own = Some(Own {
        epoch: 1,
        rows: Table::new(alloc),
    });
    let life = a_life(alloc, slots)?;
    match write_trace(alloc, SHAPE, &life) {
        Ok(_) => Ok(false),
        Err(fault) => Ok(fault == WriteFault::OwnRows),
    }
}

// More bytes than a trace are none, nor are none.
fn ends_there(alloc: Global) -> Result<bool, NoMemory> {
    let mut bytes = TRACE.to_vec(alloc)?;
    bytes.push(0)?;
    Ok(fault_of(alloc, &bytes)? == Some(TRACE.len()) && fault_of(alloc, b"")? == Some(0))
}

// This byte in the place of another makes the fault here.
fn is_named(alloc: Global, place: usize, byte: u8, at: Option<usize>) -> Result<bool, NoMemory> {
    let mut bytes = TRACE;
    if place < bytes.len() {
        bytes[place] = byte;
    }
    Ok(fault_of(alloc, &bytes)? == at)
}

// A place, another byte there, and where it makes the fault.
const CHANGES: [(usize, u8, usize); 8] = [
    (0, 9, 0),
    (0, 3, 1),
    (2, 33, 2),
    (19, 0, 19),
    (20, 0x7f, 20),
    (69, 12, 69),
    (101, 9, 101),
    (120, 121, 120),
];

// The first byte that fits none is named.
fn names_the_first(alloc: Global) -> Result<bool, NoMemory> {
    for (place, byte, at) in &CHANGES {
        if !is_named(alloc, *place, *byte, Some(*at))? {
            return Ok(false);
        }
    }
    Ok(true)
}

// A life begins before the last checkpoint number.
fn begins_in_time(alloc: Global) -> Result<bool, NoMemory> {
    let mut bytes = TRACE;
    bytes[3] = 255;
    bytes[4] = 255;
    bytes[5] = 255;
    bytes[6] = 254;
    let before = fault_of(alloc, &bytes)?;
    bytes[6] = 255;
    let last = fault_of(alloc, &bytes)?;
    Ok(before.is_none() && last == Some(6))
}

// Each byte of the life's trace changed, and the trace cut short at each length.
fn is_borne(alloc: Global) -> Result<bool, NoMemory> {
    let mut bytes = TRACE;
    Ok(bears_cuts(alloc, &bytes)? && bears_changes(alloc, &mut bytes, 0)?)
}

// Says how a trial came out.
fn tell(rt: &HostRuntime, trial: &str, passed: bool, failed: &mut bool) -> Result<(), Stopped> {
    if passed {
        println!(rt; "{trial}: so it is")?;
    } else {
        *failed = true;
        println!(rt; "{trial}: it isn't so")?;
    }
    Ok(())
}

// Says how a trial came out, or why it didn't come to an end.
fn tell_tried(
    rt: &HostRuntime,
    trial: &str,
    tried: Result<bool, RunFault>,
    failed: &mut bool,
) -> Result<(), Stopped> {
    match tried {
        Ok(passed) => tell(rt, trial, passed, failed),
        Err(fault) => {
            *failed = true;
            println!(rt; "{trial}: {}", fault.name())?;
            Ok(())
        }
    }
}

// What is tried of the life that was worked out by hand.
const OF_LIFE: [&str; 7] = [
    "a life has its bytes, and they are read as it",
    "a step has its bytes by itself",
    "rows of a node's own are told in no trace",
    "more bytes than a trace are none",
    "the first byte that fits none is named",
    "a life begins before the last checkpoint number",
    "each cut and change of its trace is borne",
];

fn try_of_life(alloc: Global, number: usize) -> Result<bool, RunFault> {
    match number {
        0 => is_told(alloc),
        1 => is_told_alone(alloc),
        2 => refuses_own_rows(alloc),
        3 => Ok(ends_there(alloc)?),
        4 => Ok(names_the_first(alloc)?),
        5 => Ok(begins_in_time(alloc)?),
        _ => Ok(is_borne(alloc)?),
    }
}

fn try_life(rt: &HostRuntime, failed: &mut bool) -> Result<(), Stopped> {
    for (number, trial) in OF_LIFE.iter().enumerate() {
        tell_tried(rt, trial, try_of_life(rt.alloc(), number), failed)?;
    }
    Ok(())
}

// What a trace is tried with: what stands before the number of a kind, and how many kinds there are.
type Kinds = (&'static str, &'static [u8], u8);

// Signals; works in a signal that goes on, requests in such a work, and lines in a request with one; and marks of a step
// with one.
const KINDS: [Kinds; 5] = [
    ("of each signal", &[], 121),
    ("of each work", &[4], 11),
    ("of each request", &[4, 0], 24),
    (
        "of each line of a batch",
        &[4, 0, 4, 0, 0, 0, 0, 0, 0, 0, 1],
        7,
    ),
    ("of each mark", &[0, 0, 0, 0, 0, 0, 0, 0, 1], 13),
];

fn try_kind(alloc: Global, before: &[u8], count: u8) -> Result<bool, RunFault> {
    Ok(bear_kinds(alloc, before, count)?)
}

fn try_kinds(rt: &HostRuntime, failed: &mut bool) -> Result<(), Stopped> {
    for (trial, before, count) in &KINDS {
        tell_tried(rt, trial, try_kind(rt.alloc(), before, *count), failed)?;
    }
    Ok(())
}

/// Tries all of it, and says whether it came out.
///
/// # Errors
/// Want of memory, and a line that isn't written.
pub fn try_all<W: Wait>(rt: &HostRuntime, wait: &W) -> Result<bool, Stopped> {
    let mut failed = false;
    try_life(rt, &mut failed)?;
    try_kinds(rt, &mut failed)?;
    try_checks(rt, wait, &mut failed)?;
    Ok(!failed)
}
