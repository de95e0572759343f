//! Lives that are prepared in folders, each with more rows than the one before, also until the device is full.
use crate::restarts::restart::{expect, is_as, one_group, prepare_pair, restore_pair};
use crate::restarts::trouble::Trouble;
use host_real::FolderDisk;
use row_map::RowMap;
use sig_core::{Key, RestartFault, Value};
use std::alloc::Global;
use std::fs;
use sys_restart::Restored;

const FOLDERS: [&str; 2] = ["disk1", "disk2"];

/// So many lives fit on no device that is meant.
const MANY: u64 = 300;

/// How many rows a life has more than the one before.
const MORE: u64 = 100;

/// Prepares some lives in new folders, and answers how many.
///
/// # Errors
/// A fault, and what is wrong with a restart behind one of them.
pub fn live(rt: &HostRuntime) -> Result<u64, Trouble> {
    match fill(rt, 6)? {
        6 => Ok(6),
        _ => Err(Trouble::Layout),
    }
}

/// Prepares lives in new folders until a call fails, since the device is full, and answers how many. What the disks
/// have then is what they had before, or the next life.
///
/// # Errors
/// What is wrong with a restart behind one of them, or behind the call that failed.
pub fn live_until_full(rt: &HostRuntime) -> Result<u64, Trouble> {
    let lives = fill(rt, MANY)?;
    if lives == MANY {
        return Err(Trouble::NotRefused);
    }
    has_either(rt, lives)?;
    Ok(lives)
}

// Prepares lives in new folders, and answers how many were prepared before a call failed, or as many as were asked for.
fn fill(rt: &HostRuntime, most: u64) -> Result<u64, Trouble> {
    clear(rt)?;
    let mut disks = disks_of(rt)?;
    fill_disks(rt.alloc(), &mut disks, most)
}

fn clear(rt: &HostRuntime) -> Result<(), Trouble> {
    for folder in FOLDERS {
        if let Ok(true) = fs::exists(rt, folder) {
            remove(rt, folder)?;
        }
    }
    Ok(())
}

fn remove(rt: &HostRuntime, folder: &str) -> Result<(), Trouble> {
    match fs::remove_dir_all(rt, folder) {
        Ok(()) => Ok(()),
        Err(_) => Err(Trouble::Layout),
    }
}

fn disks_of(rt: &HostRuntime) -> Result<[FolderDisk<&HostRuntime>; 2], Trouble> {
    Ok([
        FolderDisk::new(rt.alloc(), rt, FOLDERS[0])?,
        FolderDisk::new(rt.alloc(), rt, FOLDERS[1])?,
    ])
}

fn fill_disks(
    alloc: Global,
    disks: &mut [FolderDisk<&HostRuntime>; 2],
    most: u64,
) -> Result<u64, Trouble> {
    for lives in 0..most {
        expect(alloc, disks, &life(alloc, lives)?)?;
        if !prepare_next(alloc, disks, lives)? {
            return Ok(lives);
        }
    }
    expect(alloc, disks, &life(alloc, most)?)?;
    Ok(most)
}

// Prepares the life behind so many. Whether it could: `false` where a call failed, which is named with its count.
fn prepare_next(
    alloc: Global,
    disks: &mut [FolderDisk<&HostRuntime>; 2],
    lives: u64,
) -> Result<bool, Trouble> {
    let rows = rows_of(alloc, lives.saturating_add(1))?;
    let next = one_group(alloc, lives, lives, rows)?;
    match prepare_pair(alloc, disks, &next) {
        Ok(()) => Ok(true),
        Err(Trouble::Fault(fault)) if is_of_disk(&fault) => Ok(false),
        Err(trouble) => Err(trouble),
    }
}

fn is_of_disk(fault: &RestartFault) -> bool {
    match fault {
        RestartFault::DiskFault { node, count } => *node <= 2 && *count == 1,
        _ => false,
    }
}

// Disks that are opened anew have the life behind so many, or the next one.
fn has_either(rt: &HostRuntime, lives: u64) -> Result<(), Trouble> {
    let mut disks = disks_of(rt)?;
    let found = restore_pair(rt.alloc(), &mut disks)?;
    let number = if found.generation == lives {
        lives
    } else {
        lives.saturating_add(1)
    };
    is_as(rt.alloc(), &found, &life(rt.alloc(), number)?)
}

// What a restart gives behind so many lives. Before the first there are no rows.
fn life(alloc: Global, lives: u64) -> Result<Restored, Trouble> {
    let rows = rows_of(alloc, lives)?;
    one_group(alloc, lives, lives.saturating_sub(1), rows)
}

// The rows of the life with this number.
fn rows_of(alloc: Global, life: u64) -> Result<RowMap, Trouble> {
    let mut rows = RowMap::new(alloc);
    for number in 0..life.saturating_mul(MORE) {
        let value = value_of(life)?;
        rows.insert(key_of(number)?, value.bytes())?;
    }
    Ok(rows)
}

fn key_of(number: u64) -> Result<Key, Trouble> {
    let mut word = [b'0'; 8];
    let mut left = number;
    for digit in &mut word {
        *digit = b'0' + (left % 10) as u8;
        left /= 10;
    }
    Ok(Key::new(&word)?)
}

fn value_of(life: u64) -> Result<Value, Trouble> {
    Ok(Value::new(&[b'0' + (life % 10) as u8; 200])?)
}
