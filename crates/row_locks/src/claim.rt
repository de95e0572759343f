//! Who holds a lock, and who waits for it.
ghost use Rattle.std.specs.Prelude.{◌≡◌};
ghost use Rattle.row_locks.specs.Queues.{wait_of};
ghost use Rattle.row_locks.specs.Serving.{granted_to};

use crate::mode::Mode;
use sig_core::TxId;

/// A transaction that holds a lock.
#[derive(Clone, Copy)]
pub struct Holder {
    pub tx: TxId,
    pub mode: Mode,
}

/// A transaction that waits for a lock.
#[derive(Clone, Copy)]
pub struct Wait {
    pub tx: TxId,
    pub mode: Mode,
    /// How many rounds it has stood in the queue, up to 8.
    pub rounds: u8,
}

impl Wait {
    /// A wait that begins.
    pub fn new(tx: TxId, mode: Mode) -> Wait
        ensures { result ≡ wait_of tx mode }
    {
        Wait {
            tx,
            mode,
            rounds: 0,
        }
    }

    /// The holder that it is once its request is granted.
    pub fn granted(self) -> Holder
        ensures { result ≡ granted_to self }
    {
        Holder {
            tx: self.tx,
            mode: self.mode,
        }
    }
}
