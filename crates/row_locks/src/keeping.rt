//! Who goes on holding the locks of all keys when all waits end.
ghost use Rattle.std.specs.Prelude.{◌≡◌, filter};
ghost use Rattle.std.specs.Vec.{vec_capacity};
ghost use Rattle.row_locks.specs.Keeping.{all_left_to, left_to};
ghost use Rattle.row_locks.specs.Tables.{locks_of};

use crate::claim::Holder;
use crate::row::Row;
use crate::table::LockTable;
use sig_core::{Key, TxId};
use std::collections::BTreeMap;

/// A test of who goes on holding the lock of a key.
pub trait Keeper {
    ghost use Rattle.std.specs.Prelude.{ℕ, Bool, List};
    ghost use Rattle.sig_core.specs.declared.member.TxId.{TxId};

    /// The transaction goes on holding the lock of the key.
    ghost keeps: { Self → List ℕ → TxId → Bool };

    /// Whether it does.
    fn keeps(&self, key: &Key, tx: TxId) -> bool
        ensures { result ≡ keeps self.now key.now tx };
}

impl LockTable {
    /// Takes everyone out of every queue, and grants nothing; then takes those out of the holders
    /// of each key that don't pass the test. Goes through all keys, and takes no memory.
    #[tactic(auto, using(crate::proofs::RoundLemmas::rounds))]
    pub fn keep<K: Keeper>(&mut self, keeper: &K)
        ensures { self.new ≡ all_left_to (K.keeps keeper.now) self.old }
    {
        keep_rows(&mut self.rows, keeper);
    }
}

// Takes out who waits and who doesn't pass the test, and removes the keys that nobody holds then.
fn keep_rows<K: Keeper>(rows: &mut BTreeMap<Key, Row>, keeper: &K)
    ensures { locks_of rows.new ≡ all_left_to (K.keeps keeper.now) (locks_of rows.old) }
{
    rows.retain(|key, row| {
        row.keep(key, keeper);
        !row.is_idle()
    });
}

impl Row {
    /// Takes everyone out of the queue, and those out of the holders that don't pass the test.
    pub fn keep<K: Keeper>(&mut self, key: &Key, keeper: &K)
        ensures { self.new ≡ left_to (K.keeps keeper.now key.now) self.old }
    {
        self.queue.clear();
        keep_holders(key, keeper, &mut self.holders);
    }
}

// Takes those out of the holders that don't pass the test. Takes no memory.
fn keep_holders<K: Keeper>(key: &Key, keeper: &K, holders: &mut Vec<Holder>)
    ensures holders { holders.new.items ≡ filter (λ holder. K.keeps keeper.now key.now holder.tx) holders.old.items }
    ensures capacity { vec_capacity holders.new ≡ vec_capacity holders.old }
{
    holders.retain(|holder| keeper.keeps(key, holder.tx));
}
