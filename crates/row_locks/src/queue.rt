//! The queue of a lock.
ghost use Rattle.std.specs.Prelude.{◌≡◌, ◌≤◌, length};
ghost use Rattle.row_locks.specs.Queues.{waits, without, raised, raised_if, aged, ages, aged_all, is_open};
ghost use Rattle.sig_core.specs.Same.{same_tx};
ghost use Rattle.row_locks.specs.Rounds.{first_expired, is_expired};

use crate::claim::Wait;
use crate::mode::{Mode, same_tx, stronger};
use sig_core::TxId;

/// How many rounds a wait stands at most.
pub const ROUNDS: u8 = 8;

/// Whether the transaction waits.
pub fn waits(tx: TxId, queue: &[Wait]) -> bool
    ensures { result ≡ waits tx queue.now }
{
    for wait in queue {
        if same_tx(wait.tx, tx) {
            return true;
        }
    }
    false
}

/// Takes the transaction out of the queue. Takes no memory.
pub fn leave(tx: TxId, queue: &mut Vec<Wait>)
    ensures queue { queue.new.items ≡ without tx queue.old.items }
    ensures fewer { length queue.new.items ≤ length queue.old.items }
{
    queue.retain(|wait| !same_tx(wait.tx, tx));
}

/// Makes the transaction wait for this mode too, at its old place.
#[tactic(auto, using(crate::proofs::QueueLemmas::map_one_more))]
pub fn raise(tx: TxId, mode: Mode, queue: &mut [Wait])
    ensures { queue.new ≡ raised tx mode queue.old }
{
    for wait in queue {
        raise_one(tx, mode, wait);
    }
}

// Raises a wait, if it is the transaction's.
fn raise_one(tx: TxId, mode: Mode, wait: &mut Wait)
    ensures { wait.new ≡ raised_if (same_tx wait.old.tx tx) mode wait.old }
{
    if same_tx(wait.tx, tx) {
        wait.mode = stronger(wait.mode, mode);
    }
}

/// Adds a round to each wait that ages.
#[tactic(auto, using(crate::proofs::QueueLemmas::map_one_more))]
pub fn age_all(queue: &mut [Wait])
    ensures { queue.new ≡ aged_all queue.old }
{
    for wait in queue {
        age(wait);
    }
}

// Adds a round to a wait, if it ages.
fn age(wait: &mut Wait)
    ensures { wait.new ≡ aged wait.old }
{
    if ages(*wait) {
        wait.rounds += 1;
    }
}

// Whether a wait isn't of the copying of rows, and has not come to eight rounds.
fn ages(wait: Wait) -> bool
    ensures { result ≡ ages wait }
{
    0 < wait.tx.tc && is_open(wait)
}

/// Who waits first of those that have stood at eight rounds.
pub fn first_expired(queue: &[Wait]) -> Option<TxId>
    ensures { result ≡ first_expired queue.now }
{
    for wait in queue {
        if is_expired(*wait) {
            return Some(wait.tx);
        }
    }
    None
}

// Whether a wait has stood at eight rounds.
fn is_expired(wait: Wait) -> bool
    ensures { result ≡ is_expired wait }
{
    !is_open(wait)
}

/// Whether a wait has not stood at eight rounds.
pub fn is_open(wait: Wait) -> bool
    ensures { result ≡ is_open wait }
{
    wait.rounds < ROUNDS
}
