//! The holders of a lock.
ghost use Rattle.std.specs.Prelude.{◌≡◌, ◌<◌, ◌≤◌, ◌+◌, ◌&&◌, ◌||◌, length};
ghost use Rattle.std.specs.Vec.{vec_capacity};
ghost use Rattle.sig_core.specs.Same.{same_tx};
ghost use Rattle.row_locks.specs.Modes.{is_enough, agree};
ghost use Rattle.row_locks.specs.Holders.{others, agrees_with, holds, holds_enough, hold, first_other};

use crate::claim::Holder;
use crate::mode::{Mode, agree, is_enough, same_tx};
use sig_core::TxId;

/// Whether the mode agrees with that of every holder but the transaction.
pub fn agrees_with(tx: TxId, mode: Mode, holders: &[Holder]) -> bool
    ensures { result ≡ agrees_with tx mode holders.now }
{
    for holder in holders {
        if !stands_beside(tx, mode, *holder) {
            return false;
        }
    }
    true
}

// Whether this holder is the transaction, or its mode agrees.
fn stands_beside(tx: TxId, mode: Mode, holder: Holder) -> bool
    ensures { result ≡ (same_tx holder.tx tx || agree holder.mode mode) }
{
    same_tx(holder.tx, tx) || agree(holder.mode, mode)
}

/// Whether the transaction holds the lock.
pub fn holds(tx: TxId, holders: &[Holder]) -> bool
    ensures { result ≡ holds tx holders.now }
{
    for holder in holders {
        if same_tx(holder.tx, tx) {
            return true;
        }
    }
    false
}

/// Whether the transaction holds the lock in a mode that is enough.
pub fn holds_enough(tx: TxId, asked: Mode, holders: &[Holder]) -> bool
    ensures { result ≡ holds_enough tx asked holders.now }
{
    for holder in holders {
        if has_enough(tx, asked, *holder) {
            return true;
        }
    }
    false
}

// Whether this holder is the transaction, in a mode that is enough.
fn has_enough(tx: TxId, asked: Mode, holder: Holder) -> bool
    ensures { result ≡ (same_tx holder.tx tx && is_enough holder.mode asked) }
{
    same_tx(holder.tx, tx) && is_enough(holder.mode, asked)
}

/// The first holder that isn't the transaction; where there is none, the transaction itself.
pub fn first_other(tx: TxId, holders: &[Holder]) -> TxId
    ensures { result ≡ first_other tx holders.now }
{
    for holder in holders {
        if !same_tx(holder.tx, tx) {
            return holder.tx;
        }
    }
    tx
}

/// Takes the transaction out of the holders. Takes no memory.
pub fn let_go(tx: TxId, holders: &mut Vec<Holder>)
    ensures holders { holders.new.items ≡ others tx holders.old.items }
    ensures fewer { length holders.new.items ≤ length holders.old.items }
    ensures capacity { vec_capacity holders.new ≡ vec_capacity holders.old }
{
    holders.retain(|holder| !same_tx(holder.tx, tx));
}

/// Makes the transaction the last holder, in this mode and no other. Takes no memory.
pub fn hold(tx: TxId, mode: Mode, holders: &mut Vec<Holder>)
    requires { length holders.old.items < vec_capacity holders.old }
    ensures holders { holders.new.items ≡ hold tx mode holders.old.items }
    ensures most { length holders.new.items ≤ length holders.old.items + 1 }
    ensures capacity { vec_capacity holders.new ≡ vec_capacity holders.old }
{
    let_go(tx, holders);
    holders.push_reserved(Holder { tx, mode });
}
