//! Each bit of a checkpoint of version 1 is flipped in turn.
use crate::restarts::layout::{Layout, disks_of, slot_without_redo, system_of};
use crate::restarts::restart::restore_pair;
use crate::restarts::rows::{key_of, value_of};
use crate::restarts::trouble::Trouble;
use lcp_store::put_row;
use row_map::RowMap;
use sig_core::{Key, RestartFault, Value};
use std::alloc::Global;
use sys_restart::Restored;

/// The first row takes so many bytes. Where its key is of one letter in place of three, the rest of it is a value.
const FIRST: usize = 101;

/// Flips each bit of a checkpoint of version 1 in turn, and answers how many of them are named. Only those of words,
/// and of the length of a key, may give another restart, in which the row of the byte alone is another.
///
/// # Errors
/// One that gives other rows.
pub fn flip_all(alloc: Global) -> Result<u64, Trouble> {
    let mut bytes = checkpoint(alloc)?;
    let mut named = 0u64;
    for at in 0..bytes.len() {
        named = named.saturating_add(flip_byte(alloc, &mut bytes, at)?);
    }
    Ok(named)
}

fn checkpoint(alloc: Global) -> Result<Vec<u8>, Trouble> {
    let mut bytes = Vec::new(alloc);
    put_row(&mut bytes, &Key::new(b"abc")?, &[b'v'; 96])?;
    put_row(&mut bytes, &key_of(b'd')?, &[b'4'])?;
    Ok(bytes)
}

fn flip_byte(alloc: Global, bytes: &mut [u8], at: usize) -> Result<u64, Trouble> {
    let mut named = 0u64;
    for bit in [1, 2, 4, 8, 16, 32, 64, 128] {
        turn(bytes, at, bit);
        if is_named(alloc, bytes, at)? {
            named = named.saturating_add(1);
        }
        turn(bytes, at, bit);
    }
    Ok(named)
}

fn turn(bytes: &mut [u8], at: usize, bit: u8) {
    if let Some(byte) = bytes.get_mut(at) {
        *byte ^= bit;
    }
}

// Whether a restart names the byte that was flipped, or one behind it.
fn is_named(alloc: Global, bytes: &[u8], at: usize) -> Result<bool, Trouble> {
    let layout = layout_of(alloc, bytes)?;
    let mut disks = disks_of(&layout, &layout)?;
    match restore_pair(alloc, &mut disks) {
        Ok(found) => is_of_row(alloc, &found, at),
        Err(Trouble::Fault(fault)) if is_damage(&fault) => Ok(true),
        Err(trouble) => Err(trouble),
    }
}

fn is_damage(fault: &RestartFault) -> bool {
    matches!(
        fault,
        RestartFault::Damaged {
            node: 1,
            file: 3,
            ..
        }
    )
}

fn layout_of(alloc: Global, bytes: &[u8]) -> Result<Layout, Trouble> {
    let mut layout = Layout::new(alloc);
    match lay(&mut layout, bytes) {
        Ok(()) => Ok(layout),
        Err(trouble) => Err(trouble),
    }
}

fn lay(layout: &mut Layout, bytes: &[u8]) -> Result<(), Trouble> {
    layout.put(3, 0, bytes)?;
    layout.control(0, &slot_without_redo(3, 7, 1, 2, bytes.len() as u64))?;
    layout.system(0, &system_of(7, 2, 3))
}

// Answers `false` where the byte may give such rows.
fn is_of_row(alloc: Global, found: &Restored, at: usize) -> Result<bool, Trouble> {
    let [rows] = found.groups.as_slice() else {
        return Err(Trouble::Other);
    };
    if found.generation == 7 && found.epoch == 2 && may_give(alloc, rows, at)? {
        Ok(false)
    } else {
        Err(Trouble::Other)
    }
}

// There are two rows, of which the one is right that the byte isn't of.
fn may_give(alloc: Global, rows: &RowMap, at: usize) -> Result<bool, Trouble> {
    let count = rows.to_rows(alloc)?.len();
    let right = if at < FIRST {
        has_second(rows)?
    } else {
        has_first(rows)?
    };
    Ok(right && count == 2 && !matches!(at, 4 | 101 | 103))
}

fn has_first(rows: &RowMap) -> Result<bool, Trouble> {
    let value = Value::new(&[b'v'; 96])?;
    Ok(rows.get(&Key::new(b"abc")?) == Some(value))
}

fn has_second(rows: &RowMap) -> Result<bool, Trouble> {
    let value = value_of(b'4')?;
    Ok(rows.get(&key_of(b'd')?) == Some(value))
}
