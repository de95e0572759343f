//! What becomes of a trace that is cut short or changed.
use sig_core::NoMemory;
use std::alloc::Global;
use trace_read::{TraceFault, read_trace};
use trace_write::write_trace;

/// What is put over a byte.
const FLIPS: [u8; 6] = [1, 2, 4, 32, 128, 255];

/// Whether the bytes are a trace, and the life that they tell has just these bytes.
///
/// # Errors
/// `NoMemory`, as of all that follow.
pub fn is_written_again(alloc: Global, bytes: &[u8]) -> Result<bool, NoMemory> {
    match read_trace(alloc, bytes) {
        Ok((shape, life)) => match write_trace(alloc, shape, &life) {
            Ok(again) => Ok(again.as_slice() == bytes),
            Err(_) => Ok(false),
        },
        Err(TraceFault::NoMemory) => Err(NoMemory),
        Err(TraceFault::NotTrace { at: _ }) => Ok(false),
    }
}

/// Where the bytes stop being a trace; None where they are one.
pub fn fault_of(alloc: Global, bytes: &[u8]) -> Result<Option<usize>, NoMemory> {
    match read_trace(alloc, bytes) {
        Ok(_) => Ok(None),
        Err(TraceFault::NotTrace { at }) => Ok(Some(at)),
        Err(TraceFault::NoMemory) => Err(NoMemory),
    }
}

/// However short a trace is cut, what is left is none, and the fault is at its end.
pub fn bears_cuts(alloc: Global, bytes: &[u8]) -> Result<bool, NoMemory> {
    for len in 0..bytes.len() {
        if fault_of(alloc, &bytes[..len])? != Some(len) {
            return Ok(false);
        }
    }
    Ok(true)
}

// With a byte changed the bytes are another trace, or the fault isn't before that byte.
fn bears_change(alloc: Global, bytes: &[u8], place: usize) -> Result<bool, NoMemory> {
    match fault_of(alloc, bytes)? {
        None => is_written_again(alloc, bytes),
        Some(at) => Ok(place <= at && at <= bytes.len()),
    }
}

/// Each byte from a place on, changed in turn, makes another trace, or a fault there or behind it.
pub fn bears_changes(alloc: Global, bytes: &mut [u8], from: usize) -> Result<bool, NoMemory> {
    for place in from..bytes.len() {
        let right = bytes[place];
        for flip in FLIPS {
            bytes[place] = right ^ flip;
            if !bears_change(alloc, bytes, place)? {
                return Ok(false);
            }
        }
        bytes[place] = right;
    }
    Ok(true)
}
