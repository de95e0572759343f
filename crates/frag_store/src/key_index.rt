//! Where each key is, with the last ones that were asked for.
ghost use Rattle.std.specs.Prelude.{◌≡◌, IfOk, List, None, OnOk, Some, false, ℕ};
ghost use Rattle.std.specs.FinMap as map;
ghost use Rattle.linear_hash.specs.Places.{no_places};
ghost use Rattle.sig_core.specs.Same.{same_key};

use crate::lead::Lead;
use crate::leads::Leads;
use linear_hash::Index;
use sig_core::{HashedKey, Key, NoMemory};
use std::alloc::Global;
use std::marker::Model;

/// An index of keys, and where it led those that were last asked for: most often they are asked for
/// next, and then no digest is taken. Contracts see what an index is.
#[derive(Drop)]
pub struct KeyIndex {
    index: Index,
    leads: Leads,
}

impl Model for KeyIndex {
    ghost use Rattle.linear_hash.specs.Places.{Places, places_code};
    ghost use Rattle.frag_store.specs.Leads.{AreLed};

    ghost Value = { Places };

    ghost coded = { places_code };

    ghost view = { λ k. k.index };

    ghost invariant = { λ k. AreLed k.index.at k.leads };
}

impl KeyIndex {
    /// No keys.
    ///
    /// # Errors
    /// `NoMemory`.
    pub fn new(alloc: Global) -> Result<KeyIndex, NoMemory>
        ensures { IfOk result (λ index. index ≡ no_places) }
    {
        let index = Index::new(alloc)?;
        let leads = Leads::new();
        Ok(KeyIndex { index, leads })
    }

    /// Where the key is led.
    pub fn find(&self, key: &Key) -> Option<u64>
        ensures { result ≡ map.get self.now.at key.now }
    {
        match self.leads.find(key) {
            Some(lead) => lead.at,
            None => self.index.find(&HashedKey::new(key)),
        }
    }

    // The key with its number, which is known where it was asked for lately.
    fn hashed(&self, key: &Key) -> HashedKey
        ensures { result.key ≡ key.now }
    {
        match self.leads.find(key) {
            Some(lead) => lead.key,
            None => HashedKey::new(key),
        }
    }

    /// Where a key is led that comes with its number, which is then the last that was asked for.
    pub fn note(&mut self, key: &HashedKey) -> Option<u64>
        ensures place { result ≡ map.get self.old.at key.now.key }
        ensures same { self.new ≡ self.old }
    {
        let at = self.index.find(key);
        self.leads.push(Lead { key: *key, at });
        at
    }

    /// Where the key is led, which is then among the last that were asked for.
    pub fn recall(&mut self, key: &Key) -> Option<u64>
        ensures place { result ≡ map.get self.old.at key.now }
        ensures same { self.new ≡ self.old }
    {
        match self.leads.find(key) {
            Some(lead) => lead.at,
            None => self.note(&HashedKey::new(key)),
        }
    }

    /// Leads a key there that is led nowhere.
    ///
    /// # Errors
    /// `NoMemory`.
    #[tactic(auto, unfolding(linear_hash::specs::Places::inserted), using(crate::proofs::LeadLemmas::leads))]
    pub fn lead(&mut self, key: &Key, at: u64) -> Result<(), NoMemory>
        requires { map.get self.old.at key.now ≡ None }
        ensures ok { OnOk result (map.get self.new.at key.now ≡ Some at) }
        ensures others { (q : List ℕ) → same_key key.now q ≡ false → map.get self.new.at q ≡ map.get self.old.at q }
    {
        let key = self.hashed(key);
        self.index.insert(&key, at)?;
        self.leads.push(Lead { key, at: Some(at) });
        Ok(())
    }

    /// Leads a key nowhere. Takes no memory.
    #[tactic(auto, unfolding(linear_hash::specs::Places::removed), using(crate::proofs::LeadLemmas::leads))]
    pub fn leave(&mut self, key: &Key)
        ensures gone { map.get self.new.at key.now ≡ None }
        ensures others { (q : List ℕ) → same_key key.now q ≡ false → map.get self.new.at q ≡ map.get self.old.at q }
    {
        let key = self.hashed(key);
        self.leads.forget(&key);
        self.index.remove(&key);
    }
}
