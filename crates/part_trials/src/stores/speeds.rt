//! How long stores of rows take.
use crate::keys::key_of;
use crate::stopped::Stopped;
use crate::stores::rows_by_key::RowsByKey;
use crate::watch::{Watch, a_second};
use frag_store::Store;
use sig_core::{Key, Value};
use std::alloc::Global;
use std::collections::{BTreeMap, HashMap};

/// So many rows are put in, in all: where a store has fewer, it is filled anew.
const LEAST: u64 = 131_072;

/// How far apart keys are that are looked for one after the other.
const STRIDE: usize = 7_919;

/// The nanoseconds of each kind.
#[derive(Clone, Copy)]
struct Taken {
    put: u64,
    find: u64,
    take_out: u64,
}

fn keys_of(alloc: Global, count: u64) -> Result<Vec<Key>, Stopped> {
    let mut keys = Vec::new(alloc);
    for number in 0..count {
        keys.push(key_of(number)?)?;
    }
    Ok(keys)
}

// How many of the keys are found, from one to another far from it.
fn found<M: RowsByKey>(rows: &M, keys: &[Key]) -> u64 {
    if keys.is_empty() {
        return 0;
    }
    let mut found = 0u64;
    let mut at = 0usize;
    for _ in 0..keys.len() {
        at = at.wrapping_add(STRIDE) % keys.len();
        if rows.find(&keys[at]).is_some() {
            found = found.saturating_add(1);
        }
    }
    found
}

fn time_put<M: RowsByKey>(rt: &HostRuntime, rows: &mut M, keys: &[Key]) -> Result<u64, Stopped> {
    let value = Value::new(b"a-value")?;
    let watch = Watch::start(rt)?;
    for key in keys {
        rows.put(key, &value)?;
    }
    watch.taken(rt)
}

// Also whether all are found.
fn time_find<M: RowsByKey>(
    rt: &HostRuntime,
    rows: &M,
    keys: &[Key],
) -> Result<(u64, bool), Stopped> {
    let watch = Watch::start(rt)?;
    let found = found(rows, keys);
    Ok((watch.taken(rt)?, found == keys.len() as u64))
}

fn time_take_out<M: RowsByKey>(
    rt: &HostRuntime,
    rows: &mut M,
    keys: &[Key],
) -> Result<u64, Stopped> {
    let watch = Watch::start(rt)?;
    for key in keys {
        rows.take_out(key)?;
    }
    watch.taken(rt)
}

// One filling of a store: all rows are put in, looked for and taken out.
fn time<M: RowsByKey>(
    rt: &HostRuntime,
    rows: &mut M,
    keys: &[Key],
    taken: &mut Taken,
) -> Result<bool, Stopped> {
    let put = time_put(rt, rows, keys)?;
    let (find, all_found) = time_find(rt, rows, keys)?;
    let take_out = time_take_out(rt, rows, keys)?;
    taken.put = taken.put.saturating_add(put);
    taken.find = taken.find.saturating_add(find);
    taken.take_out = taken.take_out.saturating_add(take_out);
    Ok(all_found)
}

fn tell(
    rt: &HostRuntime,
    name: &str,
    count: u64,
    filled: u64,
    taken: &Taken,
) -> Result<(), Stopped> {
    let all = count.saturating_mul(filled);
    let put = a_second(all, taken.put);
    let find = a_second(all, taken.find);
    let take_out = a_second(all, taken.take_out);
    println!(rt; "{name} {count} {put} {find} {take_out}")?;
    Ok(())
}

fn time_store(rt: &HostRuntime, keys: &[Key], taken: &mut Taken) -> Result<bool, Stopped> {
    let mut rows = Store::new(rt.alloc())?;
    time(rt, &mut rows, keys, taken)
}

fn time_sorted(rt: &HostRuntime, keys: &[Key], taken: &mut Taken) -> Result<bool, Stopped> {
    let mut rows = BTreeMap::new(rt.alloc());
    time(rt, &mut rows, keys, taken)
}

fn time_hashed(rt: &HostRuntime, keys: &[Key], taken: &mut Taken) -> Result<bool, Stopped> {
    let mut rows = HashMap::new(rt.alloc());
    time(rt, &mut rows, keys, taken)
}

fn time_each(rt: &HostRuntime, count: u64, keys: &[Key]) -> Result<bool, Stopped> {
    let filled = LEAST / count.max(1) + 1;
    let mut all_found = true;
    let none = Taken {
        put: 0,
        find: 0,
        take_out: 0,
    };
    let (mut store, mut sorted, mut hashed) = (none, none, none);
    for _ in 0..filled {
        all_found = all_found && time_store(rt, keys, &mut store)?;
        all_found = all_found && time_sorted(rt, keys, &mut sorted)?;
        all_found = all_found && time_hashed(rt, keys, &mut hashed)?;
    }
    tell(rt, "frag_store", count, filled, &store)?;
    tell(rt, "BTreeMap", count, filled, &sorted)?;
    tell(rt, "HashMap", count, filled, &hashed)?;
    Ok(all_found)
}

/// Prints for each store, by its number of rows, how many insertions, look-ups and deletions it does in a
/// second.
pub fn time_rows(rt: &HostRuntime, count: u64) -> Result<bool, Stopped> {
    let keys = keys_of(rt.alloc(), count)?;
    time_each(rt, count, &keys)
}
