//! Why the program stops before its end.
use sig_core::NoMemory;
use std::alloc::{AllocError, AllocFailed};
use std::io;

/// Why the program stops before its end. It is one small value, whatever failed, and without references: the check
/// of a function goes through what becomes of each failure.
#[derive(Clone, Copy, Debug)]
pub enum Stopped {
    NoMemory,
    /// A call of the system failed.
    System,
    /// What came of a run is no text.
    Text,
}

impl From<NoMemory> for Stopped {
    fn from(_: NoMemory) -> Stopped {
        Stopped::NoMemory
    }
}

impl From<AllocError> for Stopped {
    fn from(_: AllocError) -> Stopped {
        Stopped::NoMemory
    }
}

impl<T> From<AllocFailed<T>> for Stopped
where
    T: Drop,
{
    fn from(_: AllocFailed<T>) -> Stopped {
        Stopped::NoMemory
    }
}

impl From<io::Error> for Stopped {
    fn from(_: io::Error) -> Stopped {
        Stopped::System
    }
}
