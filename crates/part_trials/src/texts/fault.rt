//! Why a text isn't one, or what comes of it can't be told.
use sig_core::NoMemory;
use std::alloc::{AllocError, AllocFailed};

/// Why a text isn't one, or what comes of it can't be told.
#[derive(Clone, Copy)]
pub enum Fault {
    /// A line is none of a console and none of a load, or none that may stand there.
    Line,
    NoMemory,
}

impl From<AllocError> for Fault {
    fn from(_: AllocError) -> Fault {
        Fault::NoMemory
    }
}

impl From<NoMemory> for Fault {
    fn from(_: NoMemory) -> Fault {
        Fault::NoMemory
    }
}

impl<T> From<AllocFailed<T>> for Fault
where
    T: Drop,
{
    fn from(_: AllocFailed<T>) -> Fault {
        Fault::NoMemory
    }
}
