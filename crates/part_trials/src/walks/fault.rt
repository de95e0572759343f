//! Why a run fails.

use sig_core::{JournalFault, NoMemory, RowsFault, WordFault};

/// Why a run fails.
#[derive(Clone, Copy)]
pub enum RunFault {
    /// The checkpoint and the log give other rows than were committed.
    Rows,
    /// The checkpoint or the log can't be read.
    Damaged,
    /// A piece doesn't lie where the one before ends.
    Pieces,
    /// The log or the rows are full.
    Full,
    /// A word that was drawn is none.
    Word,
    NoMemory,
}

impl From<NoMemory> for RunFault {
    fn from(_fault: NoMemory) -> RunFault {
        RunFault::NoMemory
    }
}

impl From<WordFault> for RunFault {
    fn from(_fault: WordFault) -> RunFault {
        RunFault::Word
    }
}

impl From<RowsFault> for RunFault {
    fn from(fault: RowsFault) -> RunFault {
        match fault {
            RowsFault::Full { rows: _ } => RunFault::Full,
            RowsFault::NoMemory => RunFault::NoMemory,
        }
    }
}

impl From<JournalFault> for RunFault {
    fn from(fault: JournalFault) -> RunFault {
        match fault {
            JournalFault::LogFull {
                used: _,
                reserved: _,
                need: _,
            } => RunFault::Full,
            JournalFault::NoMemory => RunFault::NoMemory,
        }
    }
}
