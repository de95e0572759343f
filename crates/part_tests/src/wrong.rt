//! Why a test ends before its last assertion.
use sig_core::{NoMemory, WordFault};
use std::alloc::{AllocError, AllocFailed};
use std::io;

/// What a test needs failed. It is one small value, whatever failed, and without references: the check of a function
/// goes through what becomes of each failure.
#[derive(Clone, Copy, Debug)]
pub(crate) enum Wrong {
    /// A word is none.
    Word,
    NoMemory,
    /// A call of the system failed.
    System,
    /// Something else that a test begins with isn't so.
    Beginning,
}

impl From<&'static str> for Wrong {
    fn from(_: &'static str) -> Wrong {
        Wrong::Beginning
    }
}

impl From<WordFault> for Wrong {
    fn from(_: WordFault) -> Wrong {
        Wrong::Word
    }
}

impl From<NoMemory> for Wrong {
    fn from(_: NoMemory) -> Wrong {
        Wrong::NoMemory
    }
}

impl From<AllocError> for Wrong {
    fn from(_: AllocError) -> Wrong {
        Wrong::NoMemory
    }
}

impl<T> From<AllocFailed<T>> for Wrong
where
    T: Drop,
{
    fn from(_: AllocFailed<T>) -> Wrong {
        Wrong::NoMemory
    }
}

impl From<io::Error> for Wrong {
    fn from(_: io::Error) -> Wrong {
        Wrong::System
    }
}
