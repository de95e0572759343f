//! What a flipped bit that isn't named may come to: another number of a slot, or another word of one row.
use crate::restarts::layout::Piece;
use crate::restarts::pair::{FIRST_ROWS, LOG, ROWS};
use crate::restarts::places::{key_place, may_change_row, may_change_slot};
use crate::restarts::records::Logged;
use crate::restarts::rows::{are_same, key_of, put_letter, table_of};
use crate::restarts::trouble::Trouble;
use row_map::RowMap;
use std::alloc::Global;
use sys_restart::Restored;

/// What a restart may give that names no damage.
#[derive(Clone, Copy)]
pub enum Reach {
    /// Just what it gave before.
    Nothing,
    /// What some of the redo makes of the checkpoint, up to the epoch that is restored.
    Slots,
    /// Rows that are others at these keys alone.
    Keys([u8; 2]),
}

/// The reach of bits of a byte at a place of a piece, where they are flipped.
pub fn reach_of(piece: &Piece, at: usize, bits: u8) -> Reach {
    if may_change_slot(piece.file, at) {
        Reach::Slots
    } else if may_change_row(piece, at) {
        reach_of_row(piece, at, bits)
    } else {
        Reach::Nothing
    }
}

// Rows of the key that a row or a record has, and of the one that it has then.
fn reach_of_row(piece: &Piece, at: usize, bits: u8) -> Reach {
    let place = key_place(piece, at);
    match piece.bytes.get(place) {
        Some(key) if place == at => Reach::Keys([*key, *key ^ bits]),
        Some(key) => Reach::Keys([*key, *key]),
        None => Reach::Nothing,
    }
}

/// Whether what was found, and isn't what it should be, is within a reach.
pub fn is_within(alloc: Global, found: &Restored, reach: Reach) -> Result<bool, Trouble> {
    let [rows] = found.groups.as_slice() else {
        return Ok(false);
    };
    match reach {
        Reach::Nothing => Ok(false),
        Reach::Slots => is_of_some_slot(alloc, rows, found.epoch),
        Reach::Keys(keys) => {
            if found.generation != 1 || found.epoch != 5 {
                return Ok(false);
            }
            are_same_but(alloc, rows, &keys)
        }
    }
}

// Whether rows are those that are to be restored, but for some keys.
fn are_same_but(alloc: Global, rows: &RowMap, keys: &[u8; 2]) -> Result<bool, Trouble> {
    let right = table_of(alloc, &ROWS)?;
    let found = without(alloc, rows, keys)?;
    are_same(alloc, &found, &without(alloc, &right, keys)?)
}

// The rows without those of two keys.
fn without(alloc: Global, rows: &RowMap, keys: &[u8; 2]) -> Result<RowMap, Trouble> {
    let mut left = RowMap::new(alloc);
    put_all(alloc, &mut left, rows)?;
    match take_two(&mut left, keys) {
        Ok(()) => Ok(left),
        Err(trouble) => Err(trouble),
    }
}

fn put_all(alloc: Global, left: &mut RowMap, rows: &RowMap) -> Result<(), Trouble> {
    for (key, value) in &rows.to_rows(alloc)? {
        left.insert(*key, value.bytes())?;
    }
    Ok(())
}

fn take_two(rows: &mut RowMap, keys: &[u8; 2]) -> Result<(), Trouble> {
    for key in keys {
        rows.remove(&key_of(*key)?);
    }
    Ok(())
}

// Whether rows are those that some of the redo makes of the checkpoint, up to an epoch.
fn is_of_some_slot(alloc: Global, rows: &RowMap, epoch: u64) -> Result<bool, Trouble> {
    for from in 0..=LOG.len() {
        for to in from..=LOG.len() {
            let state = state_of(alloc, LOG.get(from..to).unwrap_or(&[]), epoch)?;
            if are_same(alloc, rows, &state)? {
                return Ok(true);
            }
        }
    }
    Ok(false)
}

// What transactions make of the checkpoint, up to an epoch.
fn state_of(alloc: Global, log: &[Logged], epoch: u64) -> Result<RowMap, Trouble> {
    let mut rows = RowMap::new(alloc);
    for (key, value, _) in &FIRST_ROWS {
        put_letter(&mut rows, *key, *value)?;
    }
    for logged in log {
        put(&mut rows, logged, epoch)?;
    }
    Ok(rows)
}

// What a transaction makes of rows, if it was committed up to an epoch.
fn put(rows: &mut RowMap, logged: &Logged, epoch: u64) -> Result<(), Trouble> {
    match (logged.epoch, logged.value) {
        (Some(at), Some(value)) if at <= epoch => put_letter(rows, logged.key, value),
        (Some(at), None) if at <= epoch => {
            rows.remove(&key_of(logged.key)?);
            Ok(())
        }
        _ => Ok(()),
    }
}
