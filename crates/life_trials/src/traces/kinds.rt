//! For each kind of what traces tell, the least trace that begins with a step of it.
use crate::traces::bearing::{bears_changes, bears_cuts, fault_of, is_written_again};
use sig_core::NoMemory;
use std::alloc::Global;

/// The bytes before the body of the only signal of a life, all 0 but the shape and the counts of logs and steps.
const BEFORE: [u8; 106] = [
    1, 1, 1, 0, 0, 0, 0, 0, 0, 0, 0, 0, 0, 0, 0, 0, 0, 0, 0, 0, 0, 0, 0, 0, 0, 0, 1, 0, 0, 0, 0, 0,
    0, 0, 0, 0, 0, 0, 0, 0, 0, 0, 0, 0, 0, 0, 1, 0, 0, 0, 0, 0, 0, 0, 0, 0, 0, 0, 0, 0, 0, 0, 0, 0,
    0, 0, 0, 0, 0, 0, 0, 0, 0, 0, 0, 0, 0, 0, 0, 0, 0, 0, 0, 0, 0, 0, 0, 0, 0, 0, 0, 0, 0, 0, 0, 0,
    0, 0, 0, 0, 0, 0, 0, 0, 0, 0,
];

// Goes on with what begins a trace until it is one: a byte 0 behind its end, or one more at the byte that
// doesn't fit. Says whether it came to one.
fn complete(alloc: Global, bytes: &mut Vec<u8>) -> Result<bool, NoMemory> {
    for _ in 0..10_000 {
        match fault_of(alloc, bytes)? {
            None => return Ok(true),
            Some(at) if at == bytes.len() => bytes.push(0)?,
            Some(at) => {
                if at >= bytes.len() || bytes[at] == 255 {
                    return Ok(false);
                }
                bytes[at] += 1;
            }
        }
    }
    Ok(false)
}

// The trace of a step whose signal begins so is written again, and bears cuts and changes.
fn bears_kind(alloc: Global, body: &[u8]) -> Result<bool, NoMemory> {
    let mut bytes = Vec::new(alloc);
    bytes.extend_from_slice(&BEFORE)?;
    bytes.extend_from_slice(body)?;
    Ok(
        complete(alloc, &mut bytes)?
            && is_written_again(alloc, &bytes)?
            && bears_cuts(alloc, &bytes)?
            && bears_changes(alloc, &mut bytes, BEFORE.len())?,
    )
}

/// So does each of so many kinds, whose number stands behind these bytes: whether they all do.
pub fn bear_kinds(alloc: Global, before: &[u8], count: u8) -> Result<bool, NoMemory> {
    for kind in 0..count {
        let mut body = Vec::new(alloc);
        body.extend_from_slice(before)?;
        body.push(kind)?;
        if !bears_kind(alloc, &body)? {
            return Ok(false);
        }
    }
    Ok(true)
}
