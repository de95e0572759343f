//! Why nothing was drawn.
use sig_core::{NoMemory, WordFault};
use std::alloc::AllocFailed;

/// Why nothing was drawn.
#[derive(Clone, Copy, Debug, PartialEq, Eq)]
pub enum DrawFault {
    /// A key or value that was drawn is none.
    Word(WordFault),
    NoMemory,
}

impl From<NoMemory> for DrawFault {
    fn from(_: NoMemory) -> DrawFault {
        DrawFault::NoMemory
    }
}

impl<T> From<AllocFailed<T>> for DrawFault
where
    T: Drop,
{
    fn from(_: AllocFailed<T>) -> DrawFault {
        DrawFault::NoMemory
    }
}

impl From<WordFault> for DrawFault {
    fn from(fault: WordFault) -> DrawFault {
        DrawFault::Word(fault)
    }
}
