//! Why a run is at fault.

use life_judge::{Fault, Law};
use sig_core::{NoMemory, RestartFault, WordFault};
use std::alloc::{AllocError, AllocFailed};
use trial_requests::DrawFault;

/// Why a run is at fault.
#[derive(Clone, Copy)]
pub enum RunFault {
    /// A law is broken.
    Broken(Law),
    /// A key or value that was drawn is none.
    Word,
    /// A restart is refused though no call failed.
    Refused(RestartFault),
    /// A restart meets calls that fail again and again.
    Unopened,
    /// The client isn't told how its transaction ended.
    Untold,
    /// The trace of a life is refused.
    Untraced,
    /// A cluster has more to do behind a stop than the table has moments for.
    Unrest,
    NoMemory,
}

impl RunFault {
    /// The fault as a line tells it.
    pub fn name(&self) -> &'static str {
        match self {
            RunFault::Broken(law) => law.name(),
            RunFault::Word => "a word that was drawn is none",
            RunFault::Refused(RestartFault::Damaged { .. }) => "a disk is damaged",
            RunFault::Refused(RestartFault::OtherShape { .. }) => "a disk has another shape",
            RunFault::Refused(_) => "a restart is refused",
            RunFault::Unopened => "a restart fails again and again",
            RunFault::Untold => "the end of the transaction isn't told",
            RunFault::Untraced => "the trace is refused",
            RunFault::Unrest => "the table ends before the cluster rests",
            RunFault::NoMemory => "out of memory",
        }
    }
}

impl From<Fault> for RunFault {
    fn from(fault: Fault) -> RunFault {
        match fault {
            Fault::Broken(law) => RunFault::Broken(law),
            Fault::NoMemory => RunFault::NoMemory,
        }
    }
}

impl From<NoMemory> for RunFault {
    fn from(_: NoMemory) -> RunFault {
        RunFault::NoMemory
    }
}

impl<T> From<AllocFailed<T>> for RunFault
where
    T: Drop,
{
    fn from(_: AllocFailed<T>) -> RunFault {
        RunFault::NoMemory
    }
}

impl From<DrawFault> for RunFault {
    fn from(fault: DrawFault) -> RunFault {
        match fault {
            DrawFault::Word(_) => RunFault::Word,
            DrawFault::NoMemory => RunFault::NoMemory,
        }
    }
}

impl From<WordFault> for RunFault {
    fn from(_: WordFault) -> RunFault {
        RunFault::Word
    }
}

impl From<AllocError> for RunFault {
    fn from(_: AllocError) -> RunFault {
        RunFault::NoMemory
    }
}
