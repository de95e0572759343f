//! What a cluster is restarted with, by the life before.
use crate::cut::Cut;
use crate::facts::{Facts, facts_of};
use crate::history::history_of;
use crate::law::{Fault, Law};
use crate::verdict::table_of;
use serial_model::cut_to_epoch;
use sig_core::{Entry, Key, Life, Table, Value};
use std::alloc::Global;

/// Judges what the cluster of a life restarts with: the epoch isn't behind one that was told durable, and the
/// rows are those of the history of the life up to that epoch. Judged of these keys.
///
/// # Errors
/// The first of these laws that is broken, or `NoMemory`.
pub fn judge_restart(
    alloc: Global,
    life: &Life,
    epoch: u64,
    rows: &[(Key, Value)],
    keys: &[Key],
) -> Result<(), Fault> {
    let cut = Cut::whole(alloc, life)?;
    judge_cut(alloc, life, &cut, epoch, rows, keys)
}

// The same, by the cut that is all of the life.
fn judge_cut(
    alloc: Global,
    life: &Life,
    cut: &Cut,
    epoch: u64,
    rows: &[(Key, Value)],
    keys: &[Key],
) -> Result<(), Fault> {
    let facts = facts_of(alloc, life, cut)?;
    judge_facts(alloc, life, &facts, epoch, rows, keys)
}

// The same, by what that tells.
fn judge_facts(
    alloc: Global,
    life: &Life,
    facts: &Facts,
    epoch: u64,
    rows: &[(Key, Value)],
    keys: &[Key],
) -> Result<(), Fault> {
    if epoch < life.start_epoch || facts.epochs.is_durable_behind(epoch) {
        return Err(Fault::Broken(Law::DurableIsRestored));
    }
    let history = history_of(alloc, facts)?;
    judge_history(alloc, life, history.as_slice(), epoch, rows, keys)
}

// The same, by the history of the life.
fn judge_history(
    alloc: Global,
    life: &Life,
    history: &[Entry],
    epoch: u64,
    rows: &[(Key, Value)],
    keys: &[Key],
) -> Result<(), Fault> {
    let kept = cut_to_epoch(alloc, history, epoch)?;
    judge_rows(alloc, life, kept.as_slice(), rows, keys)
}

// Whether the history of the life up to the epoch leads to these rows.
fn judge_rows(
    alloc: Global,
    life: &Life,
    kept: &[Entry],
    rows: &[(Key, Value)],
    keys: &[Key],
) -> Result<(), Fault> {
    let table = table_of(alloc, life.start_rows.as_slice(), kept)?;
    if has_just(&table, rows, keys) {
        Ok(())
    } else {
        Err(Fault::Broken(Law::RestartIsOfHistory))
    }
}

// Whether a table has of these keys just these rows.
fn has_just(table: &Table, rows: &[(Key, Value)], keys: &[Key]) -> bool {
    for key in keys {
        if table.get(key) != value_of(rows, key) {
            return false;
        }
    }
    true
}

// The value of a key among rows.
fn value_of(rows: &[(Key, Value)], key: &Key) -> Option<Value> {
    for row in rows {
        if row.0 == *key {
            return Some(row.1);
        }
    }
    None
}
