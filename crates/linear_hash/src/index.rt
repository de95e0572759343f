//! The index.
ghost use Rattle.std.specs.Prelude.{◌≡◌, ◌+◌, OnOk, OnErr, IfOk, None};
ghost use Rattle.std.specs.FinMap as map;
ghost use Rattle.linear_hash.specs.Places.{inserted, is_crowded, no_places, removed};

use crate::buckets::Buckets;
use sig_core::{HashedKey, NoMemory};
use std::alloc::Global;
use std::marker::Model;

/// Places by keys. Contracts see a finite map, and the number of buckets.
///
/// The buckets are split one at a time, so that no insertion copies more than one of them. A call
/// goes through the entries of one bucket, which are four on average at most where digests are
/// spread evenly; neither the buckets nor the keys are ever gone through.
#[derive(Drop)]
pub struct Index {
    buckets: Buckets,
    keys: usize,
}

impl Model for Index {
    ghost use Rattle.std.specs.Prelude.{◌≡◌};
    ghost use Rattle.std.specs.FinMap as map;
    ghost use Rattle.linear_hash.specs.Places.{Places, places_code};

    ghost Value = { Places };

    ghost coded = { places_code };

    ghost view = { λ i. i.buckets };

    ghost invariant = { λ i. i.keys ≡ map.len i.buckets.at };
}

impl Index {
    /// No keys, and one bucket.
    ///
    /// # Errors
    /// `NoMemory`.
    #[tactic(auto, using(crate::proofs::SplitLemmas::counts))]
    pub fn new(alloc: Global) -> Result<Index, NoMemory>
        ensures { IfOk result (λ index. index ≡ no_places) }
    {
        let buckets = Buckets::new(alloc)?;
        Ok(Index { buckets, keys: 0 })
    }

    /// How many buckets there are. Takes no memory.
    pub fn buckets(&self) -> u64
        ensures { result ≡ self.now.buckets }
    {
        self.buckets.len() as u64
    }

    /// The place of the key; none where it isn't there. Takes no memory.
    pub fn find(&self, key: &HashedKey) -> Option<u64>
        ensures { result ≡ map.get self.now.at key.now.key }
    {
        self.buckets.find(key)
    }

    /// Puts in a key that isn't there, and its place. One bucket is added where there are then more
    /// than four keys for each bucket.
    ///
    /// # Errors
    /// `NoMemory`, and then nothing has happened.
    #[tactic(auto, using(crate::proofs::SplitLemmas::counts))]
    pub fn insert(&mut self, key: &HashedKey, at: u64) -> Result<(), NoMemory>
        requires { map.get self.old.at key.now.key ≡ None }
        ensures ok { OnOk result (self.new ≡ inserted self.old key.now.key at) }
        ensures err { OnErr result (self.new ≡ self.old) }
    {
        let Some(keys) = self.keys.checked_add(1) else {
            return Err(NoMemory);
        };
        put_in(&mut self.buckets, key, at, keys)?;
        self.keys = keys;
        Ok(())
    }

    /// Takes the key out, and answers the place that it had; none where it isn't there. The number
    /// of buckets stays. Takes no memory.
    #[tactic(auto, using(crate::proofs::SplitLemmas::counts))]
    pub fn remove(&mut self, key: &HashedKey) -> Option<u64>
        ensures place { result ≡ map.get self.old.at key.now.key }
        ensures rest { self.new ≡ removed self.old key.now.key }
    {
        let place = self.buckets.remove(key);
        if place.is_some() {
            self.keys -= 1;
        }
        place
    }
}

// Puts in a key that isn't there, which brings the number of keys to this.
#[tactic(auto, unfolding(crate::specs::Places::inserted), using(crate::proofs::SplitLemmas::counts))]
fn put_in(table: &mut Buckets, key: &HashedKey, at: u64, keys: usize) -> Result<(), NoMemory>
    requires absent { map.get table.old.at key.now.key ≡ None }
    requires keys { keys ≡ map.len table.old.at + 1 }
    ensures ok { OnOk result (table.new ≡ inserted table.old key.now.key at) }
    ensures err { OnErr result (table.new ≡ table.old) }
{
    table.add(key, at)?;
    if !is_crowded(keys, table.len()) {
        return Ok(());
    }
    match table.split() {
        Ok(()) => Ok(()),
        Err(NoMemory) => {
            table.remove(key);
            Err(NoMemory)
        }
    }
}

// Whether so many keys are more than four for each bucket.
fn is_crowded(keys: usize, buckets: usize) -> bool
    ensures { result ≡ is_crowded keys buckets }
{
    match buckets.checked_mul(4) {
        Some(most) => most < keys,
        None => false,
    }
}
