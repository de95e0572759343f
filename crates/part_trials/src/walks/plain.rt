//! What was committed, as a plain list.

use crate::walks::fault::RunFault;
use row_map::RowMap;
use sig_core::{Key, NoMemory, Value};
use std::alloc::Global;

/// A commit of a row.
#[derive(Clone, Copy)]
pub struct Commit {
    pub key: Key,
    pub image: Option<Value>,
    pub epoch: u64,
}

/// The rows that commits up to an epoch leave, one after the other.
pub fn rows_up_to(alloc: Global, commits: &[Commit], epoch: u64) -> Result<RowMap, NoMemory> {
    let mut rows = RowMap::new(alloc);
    for commit in commits {
        if commit.epoch <= epoch {
            match commit.image {
                Some(value) => rows.insert(commit.key, value.bytes())?,
                None => rows.remove(&commit.key),
            }
        }
    }
    Ok(rows)
}

/// Two tables have the same rows of these keys.
///
/// # Errors
/// `Rows` where they haven't.
pub fn compare(one: &RowMap, other: &RowMap, keys: &[Key]) -> Result<(), RunFault> {
    for key in keys {
        if one.get(key) != other.get(key) {
            return Err(RunFault::Rows);
        }
    }
    Ok(())
}
