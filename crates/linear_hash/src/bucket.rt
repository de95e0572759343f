//! The entries of a bucket.
ghost use Rattle.std.specs.Prelude.{◌≡◌, ◌++◌, [], ◌∷◌, OnOk, OnErr, IfOk};
ghost use Rattle.linear_hash.specs.Entries.{part_of, place_in, without};
ghost use Rattle.linear_hash.specs.Growth.{IsGrowth};

use crate::entry::Entry;
use crate::growth::Growth;
use sig_core::{HashedKey, NoMemory};
use std::alloc::Global;
use std::marker::Model;

/// How many entries there is room for where a bucket is split off: twice as many as one has on average.
const ROOM: usize = 8;

/// The entries of a bucket, in the order in which they came. Contracts see their list.
#[derive(Drop)]
pub struct Bucket {
    entries: Vec<Entry>,
}

impl Model for Bucket {
    ghost use Rattle.std.specs.Prelude.{List};
    ghost use Rattle.linear_hash.specs.declared.entry.Entry.{Entry};

    ghost Value = { List Entry };

    ghost view = { λ b. b.entries.items };
}

impl Bucket {
    /// No entries. Takes no memory.
    pub fn new(alloc: Global) -> Bucket
        ensures { result ≡ [] }
    {
        Bucket {
            entries: Vec::new(alloc),
        }
    }

    /// The place of the key, if it is here.
    pub fn place(&self, key: &HashedKey) -> Option<u64>
        ensures { result ≡ place_in key.now.key self.now }
    {
        place_in(key, &self.entries)
    }

    /// Puts an entry last.
    ///
    /// # Errors
    /// `NoMemory`, and then nothing has happened.
    pub fn add(&mut self, entry: Entry) -> Result<(), NoMemory>
        ensures ok { OnOk result (self.new ≡ self.old ++ entry ∷ []) }
        ensures err { OnErr result (self.new ≡ self.old) }
    {
        self.entries.push(entry)?;
        Ok(())
    }

    /// Takes the key out. Takes no memory.
    pub fn leave(&mut self, key: &HashedKey)
        ensures { self.new ≡ without key.now.key self.old }
    {
        leave(key, &mut self.entries);
    }

    /// Keeps the entries that are in this bucket when the buckets have grown so far, in the memory that
    /// they have. Takes no memory.
    pub fn keep(&mut self, growth: Growth, bucket: usize)
        requires { IsGrowth growth }
        ensures { self.new ≡ part_of growth bucket self.old }
    {
        keep(&mut self.entries, growth, bucket);
    }

    /// A copy of the entries that are in this bucket when the buckets have grown so far.
    ///
    /// # Errors
    /// `NoMemory`.
    pub fn part(&self, alloc: Global, growth: Growth, bucket: usize) -> Result<Bucket, NoMemory>
        requires { IsGrowth growth }
        ensures { IfOk result (λ part. part ≡ part_of growth bucket self.now) }
    {
        let entries = part_of(alloc, &self.entries, growth, bucket)?;
        Ok(Bucket { entries })
    }
}

// The place of the key, of the first entry that has it.
fn place_in(key: &HashedKey, entries: &[Entry]) -> Option<u64>
    ensures { result ≡ place_in key.now.key entries.now }
{
    for entry in entries {
        if entry.is_of(key) {
            return Some(entry.at);
        }
    }
    None
}

// Takes the key out.
fn leave(key: &HashedKey, entries: &mut Vec<Entry>)
    ensures { entries.new.items ≡ without key.now.key entries.old.items }
{
    entries.retain(|entry| !entry.is_of(key));
}

// Keeps the entries that are in this bucket when the buckets have grown so far.
fn keep(entries: &mut Vec<Entry>, growth: Growth, bucket: usize)
    requires { IsGrowth growth }
    ensures { entries.new.items ≡ part_of growth bucket entries.old.items }
{
    entries.retain(|entry| entry.is_in(growth, bucket));
}

// A copy of the entries that are in this bucket when the buckets have grown so far.
fn part_of(
    alloc: Global,
    entries: &[Entry],
    growth: Growth,
    bucket: usize,
) -> Result<Vec<Entry>, NoMemory>
    requires { IsGrowth growth }
    ensures { IfOk result (λ part. part.items ≡ part_of growth bucket entries.now) }
{
    let mut part = Vec::with_capacity(alloc, ROOM)?;
    for entry in entries {
        if entry.is_in(growth, bucket) {
            part.push(*entry)?;
        }
    }
    Ok(part)
}
