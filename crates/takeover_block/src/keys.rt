//! The keys of a transaction.
ghost use Rattle.std.specs.Prelude.{◌≡◌, ◌≤◌, ◌^◌, [], ◌∷◌, IfOk, OnOk, OnErr, length};
ghost use Rattle.sig_core.specs.Same.{same_key};
ghost use Rattle.takeover_block.specs.Keys.{has_key, with_key};

use sig_core::{Key, NoMemory};
use std::alloc::Global;
use std::marker::Model;

/// How many keys of a transaction there is memory for. More are answered as want of memory.
pub const KEYS: usize = 0x1_0000_0000;

/// Keys, each once, in the order in which they were told. Contracts see a list.
#[derive(Drop)]
pub struct Keys {
    keys: Vec<Key>,
}

impl Model for Keys {
    ghost use Rattle.std.specs.Prelude.{List, ℕ, ◌≤◌, ◌^◌, length};

    ghost Value = { List (List ℕ) };

    ghost view = { λ k. k.keys.items };

    ghost invariant = { λ k. length k.keys.items ≤ 2 ^ 32 };
}

impl Keys {
    /// One key.
    ///
    /// # Errors
    /// `NoMemory`.
    pub fn one(alloc: Global, key: &Key) -> Result<Keys, NoMemory>
        ensures { IfOk result (λ keys. keys ≡ key.now ∷ []) }
    {
        let mut keys = Vec::new(alloc);
        keys.push(*key)?;
        Ok(Keys { keys })
    }

    /// The keys, in order.
    pub fn as_slice(&self) -> &[Key]
        ensures value { result.now ≡ self.now }
        ensures most { length self.now ≤ 2 ^ 32 }
    {
        self.keys.as_slice()
    }

    /// Adds a key behind the others, unless it is among them.
    ///
    /// # Errors
    /// `NoMemory`, and then the keys are as they were.
    #[tactic(auto, unfolding(crate::specs::Keys::with_key))]
    pub fn add(&mut self, key: &Key) -> Result<(), NoMemory>
        ensures ok { OnOk result (self.new ≡ with_key self.old key.now) }
        ensures err { OnErr result (self.new ≡ self.old) }
    {
        if has_key(self.keys.as_slice(), key) {
            return Ok(());
        }
        if self.keys.len() >= KEYS {
            return Err(NoMemory);
        }
        self.keys.push(*key)?;
        Ok(())
    }
}

// Whether the key is among these.
fn has_key(keys: &[Key], key: &Key) -> bool
    ensures { result ≡ has_key keys.now key.now }
{
    keys.iter().any(|other| same_key(key, other))
}

fn same_key(one: &Key, other: &Key) -> bool
    ensures { result ≡ same_key one.now other.now }
{
    *one == *other
}
