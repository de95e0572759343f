//! The modes of locks, and what a request for one is answered.
ghost use Rattle.std.specs.Prelude.{◌≡◌};
ghost use Rattle.sig_core.specs.Same.{same_tx};
ghost use Rattle.row_locks.specs.Modes.{is_enough, is_shared, agree, stronger};

use sig_core::TxId;

/// How a row is locked.
#[derive(Clone, Copy, Debug, PartialEq, Eq)]
pub enum Mode {
    /// Together with others that hold it shared.
    Shared,
    /// Alone.
    Exclusive,
}

/// What a request for a lock is answered.
#[derive(Clone, Copy, Debug, PartialEq, Eq)]
pub enum Lock {
    /// The transaction holds the lock.
    Granted,
    /// The transaction waits for the lock, which `ahead` holds.
    Queued { ahead: TxId },
}

/// Whether the two are one transaction.
pub fn same_tx(one: TxId, other: TxId) -> bool
    ensures { result ≡ same_tx one other }
{
    one.tc == other.tc && one.start == other.start && one.seq == other.seq
}

/// Whether who holds a lock in this mode has what a request for the other asks.
pub fn is_enough(held: Mode, asked: Mode) -> bool
    ensures { result ≡ is_enough held asked }
{
    match (held, asked) {
        (Mode::Exclusive, _) | (Mode::Shared, Mode::Shared) => true,
        (Mode::Shared, Mode::Exclusive) => false,
    }
}

/// Whether the mode is the shared one.
pub fn is_shared(mode: Mode) -> bool
    ensures { result ≡ is_shared mode }
{
    match mode {
        Mode::Shared => true,
        Mode::Exclusive => false,
    }
}

/// Whether two transactions may hold a lock in these modes at the same time.
pub fn agree(one: Mode, other: Mode) -> bool
    ensures { result ≡ agree one other }
{
    match (one, other) {
        (Mode::Shared, Mode::Shared) => true,
        (Mode::Shared, Mode::Exclusive) | (Mode::Exclusive, _) => false,
    }
}

/// The mode that is enough for both.
pub fn stronger(one: Mode, other: Mode) -> Mode
    ensures { result ≡ stronger one other }
{
    match one {
        Mode::Exclusive => Mode::Exclusive,
        Mode::Shared => other,
    }
}
