//! The keys that a transaction has touched.
ghost use Rattle.std.specs.Prelude.{◌≡◌, ◌≤◌, [], length, is_some, map, IsTrue, OnOk, OnErr};
ghost use Rattle.sig_core.specs.Same.{same_key};
ghost use Rattle.tc_block.specs.Resume.{rechained};
ghost use Rattle.tc_block.specs.Touched.{fits, is_on, place_of, touch, write};

use frag_map::Layout;
use sig_core::{Key, Members, NoMemory, primary_of};
use std::alloc::Global;
use std::marker::Model;

/// How many keys a transaction touches at most.
pub const KEYS: usize = 64;

/// A key that a transaction has touched.
#[derive(Clone, Copy)]
pub struct Touched {
    pub key: Key,
    /// The chain that it is committed along: that of the latest write, else the primary alone.
    pub chain: Members,
    /// A write of it took effect.
    pub written: bool,
}

/// The keys that a transaction has touched, in the order in which it first did, at most 64.
/// Contracts see a list.
#[derive(Drop)]
pub struct TouchedKeys {
    keys: Vec<Touched>,
}

impl Model for TouchedKeys {
    ghost use Rattle.std.specs.Prelude.{List, ◌≤◌, length};
    ghost use Rattle.tc_block.specs.declared.touched.Touched.{Touched};

    ghost Value = { List Touched };

    ghost view = { λ t. t.keys.items };

    ghost invariant = { λ t. length t.keys.items ≤ 64 };
}

impl TouchedKeys {
    /// No keys. Takes no memory.
    pub fn new(alloc: Global) -> TouchedKeys
        ensures { result ≡ [] }
    {
        TouchedKeys {
            keys: Vec::new(alloc),
        }
    }

    /// The keys, in order.
    pub fn as_slice(&self) -> &[Touched]
        ensures value { result.now ≡ self.now }
        ensures most { length self.now ≤ 64 }
    {
        self.keys.as_slice()
    }

    /// Whether the key was touched, or there is room for another.
    pub fn fits(&self, key: &Key) -> bool
        ensures { result ≡ fits self.now key.now }
    {
        place_of(self.keys.as_slice(), key).is_some() || self.keys.len() < KEYS
    }

    /// The key is touched, and stands last unless it was touched before.
    ///
    /// # Errors
    /// `NoMemory`, and then the keys are as they were.
    pub fn touch(&mut self, key: &Key, chain: &Members) -> Result<(), NoMemory>
        requires { IsTrue (fits self.old key.now) }
        ensures ok { OnOk result (self.new ≡ touch self.old key.now chain.now) }
        ensures err { OnErr result (self.new ≡ self.old) }
    {
        match place_of(self.keys.as_slice(), key) {
            Some(_) => Ok(()),
            None => {
                let chain = primary_of(chain);
                self.keys.push(Touched {
                    key: *key,
                    chain,
                    written: false,
                })?;
                Ok(())
            }
        }
    }

    /// A write of the key took effect along this chain. A key that wasn't touched changes nothing.
    pub fn write(&mut self, key: &Key, chain: &Members)
        ensures { self.new ≡ write self.old key.now chain.now }
    {
        if let Some(at) = place_of(self.keys.as_slice(), key) {
            self.keys[at] = Touched {
                key: *key,
                chain: *chain,
                written: true,
            };
        }
    }

    /// Each key has the chain of a layout. One that was only read has the primary alone.
    pub fn rechain(&mut self, layout: &Layout)
        ensures { self.new ≡ map (rechained layout.now) self.old }
    {
        for t in self.keys.iter_mut() {
            *t = rechained(layout, t);
        }
    }
}

// A key along the chain of a layout.
#[tactic(auto, unfolding(crate::specs::Resume::rechained))]
fn rechained(layout: &Layout, t: &Touched) -> Touched
    ensures { result ≡ rechained layout.now t.now }
{
    let chain = layout.chain_of(&t.key);
    Touched {
        key: t.key,
        chain: if t.written { chain } else { primary_of(&chain) },
        written: t.written,
    }
}

// Where the key stands, if it was touched.
fn place_of(keys: &[Touched], key: &Key) -> Option<usize>
    ensures { result ≡ place_of keys.now key.now }
{
    keys.iter().position(|t| is_on(key, t))
}

// Whether this one is on the key.
fn is_on(key: &Key, t: &Touched) -> bool
    ensures { result ≡ is_on key.now t.now }
{
    same_key(&t.key, key)
}

/// Whether the two are one key.
pub fn same_key(one: &Key, other: &Key) -> bool
    ensures { result ≡ same_key one.now other.now }
{
    *one == *other
}
