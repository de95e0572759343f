//! Why a trial fails.
use sig_core::{NoMemory, ReadFault, RestartFault, WordFault};
use std::alloc::{AllocError, AllocFailed};

/// Why a trial fails.
#[derive(Clone, Copy, Debug)]
pub enum Trouble {
    /// A restart gives another generation, epoch or rows than it should.
    Other,
    /// A restart or a preparation answers a fault.
    Fault(RestartFault),
    /// Reading a checkpoint, or a node's own rows, answers a fault.
    Read(ReadFault),
    /// One that should be refused isn't.
    NotRefused,
    /// A disk refuses what is laid out on it.
    Layout,
    /// A word that is laid out is none.
    Word,
    NoMemory,
}

impl From<RestartFault> for Trouble {
    fn from(fault: RestartFault) -> Trouble {
        match fault {
            RestartFault::NoMemory => Trouble::NoMemory,
            fault => Trouble::Fault(fault),
        }
    }
}

impl From<ReadFault> for Trouble {
    fn from(fault: ReadFault) -> Trouble {
        match fault {
            ReadFault::NoMemory => Trouble::NoMemory,
            fault => Trouble::Read(fault),
        }
    }
}

impl From<NoMemory> for Trouble {
    fn from(_fault: NoMemory) -> Trouble {
        Trouble::NoMemory
    }
}

impl From<AllocError> for Trouble {
    fn from(_fault: AllocError) -> Trouble {
        Trouble::NoMemory
    }
}

impl<T: Drop> From<AllocFailed<T>> for Trouble {
    fn from(_fault: AllocFailed<T>) -> Trouble {
        Trouble::NoMemory
    }
}

impl From<WordFault> for Trouble {
    fn from(_fault: WordFault) -> Trouble {
        Trouble::Word
    }
}
