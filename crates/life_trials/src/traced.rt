//! Lives as traces.

use crate::fault::RunFault;
use sig_core::{Life, Shape};
use std::alloc::Global;
use trace_check::{TraceFault, check};
use trace_write::{WriteFault, write_trace};

/// Has the trace of a life checked.
///
/// # Errors
/// `Untraced`, where it has none, or none that is accepted, or `NoMemory`.
pub fn check_trace(alloc: Global, shape: Shape, life: &Life) -> Result<(), RunFault> {
    match write_trace(alloc, shape, life) {
        Ok(bytes) => check_bytes(alloc, bytes.as_slice()),
        Err(WriteFault::NoMemory) => Err(RunFault::NoMemory),
        Err(_) => Err(RunFault::Untraced),
    }
}

fn check_bytes(alloc: Global, bytes: &[u8]) -> Result<(), RunFault> {
    match check(alloc, bytes) {
        Ok(_) => Ok(()),
        Err(TraceFault::NoMemory) => Err(RunFault::NoMemory),
        Err(_) => Err(RunFault::Untraced),
    }
}
