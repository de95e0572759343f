//! An entry of a bucket.
ghost use Rattle.std.specs.Prelude.{◌≡◌, ◌==◌};
ghost use Rattle.sig_core.specs.Digest.{hash_of};
ghost use Rattle.sig_core.specs.Same.{same_key};
ghost use Rattle.linear_hash.specs.Growth.{IsGrowth, home};

use crate::growth::{Growth, home_of};
use sig_core::{HashedKey, Key};

/// A key, the place that it leads to, and its number, so that no digest is taken where a bucket is split.
#[derive(Clone, Copy)]
pub struct Entry {
    pub key: Key,
    pub at: u64,
    hash: u32,
    ghost hashed: { hash ≡ hash_of key },
}

impl Entry {
    /// The entry of a key and its place.
    pub fn new(key: &HashedKey, at: u64) -> Entry
        ensures key { result.key ≡ key.now.key }
        ensures place { result.at ≡ at }
    {
        Entry {
            key: key.key,
            at,
            hash: key.hash,
        }
    }

    /// Whether it is of this key. Most others differ in their numbers already.
    pub fn is_of(&self, key: &HashedKey) -> bool
        ensures { result ≡ same_key self.now.key key.now.key }
    {
        self.hash == key.hash && self.key == key.key
    }

    /// Whether its key is in this bucket.
    #[tactic(auto, unfolding(crate::specs::Growth::home))]
    pub fn is_in(&self, growth: Growth, bucket: usize) -> bool
        requires { IsGrowth growth }
        ensures { result ≡ (home growth self.now.key == bucket) }
    {
        home_of(growth, self.hash) == bucket
    }
}
