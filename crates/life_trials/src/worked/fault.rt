//! Why a text has no runs.
use std::alloc::AllocError;

/// Why a text has no runs.
#[derive(Clone, Copy)]
pub enum Fault {
    /// The line of this number, from 1, is none of a run, or none that may stand there.
    Line(u32),
    NoMemory,
}

impl From<AllocError> for Fault {
    fn from(_: AllocError) -> Fault {
        Fault::NoMemory
    }
}
