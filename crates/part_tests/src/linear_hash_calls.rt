//! Pseudo-random calls: after each, the index and an ordered map of the standard library answer
//! alike, and the buckets are counted by the rule.
ghost use Rattle.std.specs.Prelude.{◌<◌};

use crate::wrong::Wrong;
use linear_hash::Index;
use sig_core::{HashedKey, Key};
use std::collections::BTreeMap;

const CALLS: u64 = 20_000;

const KEYS: u64 = 700;

// A linear congruential generator, with the constants of MMIX.
#[derive(Drop)]
struct Random(u64);

impl Random {
    // A number below `bound`.
    fn below(&mut self, bound: u64) -> u64
        requires { 0 < bound }
    {
        self.0 = self
            .0
            .wrapping_mul(6364136223846793005)
            .wrapping_add(1442695040888963407);
        (self.0 >> 33) % bound
    }
}

// The key of a number: two letters.
fn key_of(n: u64) -> Result<HashedKey, Wrong> {
    let bytes = [b'A' + (n / 50 % 50) as u8, b'A' + (n % 50) as u8];
    Ok(HashedKey::new(&Key::new(&bytes)?))
}

// Whether both have the same of a key.
fn agree_on(index: &Index, plain: &BTreeMap<Key, u64>, key: &HashedKey) -> bool {
    index.find(key) == plain.get(&key.key).copied()
}

// Puts a key into the index, where it isn't there, and says whether it wasn't.
fn puts(index: &mut Index, key: &HashedKey, at: u64) -> Result<bool, Wrong> {
    if index.find(key).is_some() {
        return Ok(false);
    }
    index.insert(key, at)?;
    Ok(true)
}

// How many buckets there are to be with so many keys, where there were so many before the last.
fn buckets_with(before: u64, keys: usize) -> u64 {
    let crowded = before.saturating_mul(4) < keys as u64;
    before.saturating_add(if crowded { 1 } else { 0 })
}

// Puts a key into both.
fn put(
    index: &mut Index,
    plain: &mut BTreeMap<Key, u64>,
    key: &HashedKey,
    at: u64,
) -> Result<bool, Wrong> {
    let before = index.buckets();
    let is_new = puts(index, key, at)?;
    plain.insert(key.key, at)?;
    Ok(is_new && index.buckets() == buckets_with(before, plain.len()))
}

// Takes a key out of both.
fn take(index: &mut Index, plain: &mut BTreeMap<Key, u64>, key: &HashedKey) -> bool {
    let before = index.buckets();
    let taken = index.remove(key);
    taken == plain.remove(&key.key) && index.buckets() == before
}

// One call on a key: it is put in where it isn't there, and else found or taken out.
fn call(
    index: &mut Index,
    plain: &mut BTreeMap<Key, u64>,
    key: &HashedKey,
    at: u64,
    takes: bool,
) -> Result<bool, Wrong> {
    if !agree_on(index, plain, key) {
        Ok(false)
    } else if index.find(key).is_none() {
        put(index, plain, key, at)
    } else {
        Ok(!takes || take(index, plain, key))
    }
}

// Whether both have the same of each key.
fn agree(index: &Index, plain: &BTreeMap<Key, u64>) -> Result<bool, Wrong> {
    for n in 0..KEYS {
        if !agree_on(index, plain, &key_of(n)?) {
            return Ok(false);
        }
    }
    Ok(true)
}

#[test]
fn calls_answer_as_an_ordered_map(rt: HostRuntime) -> Result<(), Wrong> {
    let mut random = Random(7);
    let mut index = Index::new(rt.alloc())?;
    let mut plain = BTreeMap::new(rt.alloc());
    for at in 0..CALLS {
        let key = key_of(random.below(KEYS))?;
        let takes = random.below(3) == 0;
        assert!(rt; call(&mut index, &mut plain, &key, at, takes)?);
    }
    assert!(rt; agree(&index, &plain)?);
    assert!(rt; 100 < index.buckets());
    Ok(())
}
