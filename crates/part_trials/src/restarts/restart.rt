//! Restarts of the pair, held against what they have to give.
use crate::restarts::layout::{Layout, PAIR, disks_of};
use crate::restarts::rows::{group_of, have_rows, table_of};
use crate::restarts::trouble::Trouble;
use host_io::Disk;
use row_map::RowMap;
use sig_core::RestartFault;
use std::alloc::Global;
use sys_restart::{Restored, prepare_life, restore};

/// What the disks of the pair have.
pub fn restore_pair<D: Disk>(alloc: Global, disks: &mut [D; 2]) -> Result<Restored, Trouble> {
    match restore(alloc, disks, PAIR) {
        Ok(found) => Ok(found),
        Err(fault) => Err(Trouble::from(fault)),
    }
}

/// Prepares the life of the pair behind this.
pub fn prepare_pair<D: Disk>(
    alloc: Global,
    disks: &mut [D; 2],
    restored: &Restored,
) -> Result<(), Trouble> {
    match prepare_life(alloc, disks, PAIR, restored) {
        Ok(()) => Ok(()),
        Err(fault) => Err(Trouble::from(fault)),
    }
}

/// A restart of the pair gives this.
///
/// # Errors
/// `Other` where it gives something else; its fault.
pub fn expect<D: Disk>(
    alloc: Global,
    disks: &mut [D; 2],
    wanted: &Restored,
) -> Result<(), Trouble> {
    match restore_pair(alloc, disks) {
        Ok(found) => is_as(alloc, &found, wanted),
        Err(trouble) => Err(trouble),
    }
}

/// A restart of the pair names this fault.
///
/// # Errors
/// `NotRefused` where it names none, and another fault.
pub fn expect_fault<D: Disk>(
    alloc: Global,
    disks: &mut [D; 2],
    wanted: RestartFault,
) -> Result<(), Trouble> {
    match restore_pair(alloc, disks) {
        Ok(_) => Err(Trouble::NotRefused),
        Err(Trouble::Fault(found)) if found == wanted => Ok(()),
        Err(trouble) => Err(trouble),
    }
}

/// A restart of disks that are laid out so gives one group of these rows, each of one letter, in a generation and an
/// epoch.
///
/// # Errors
/// `Other` where it gives something else; its fault.
pub fn gives(
    alloc: Global,
    one: &Layout,
    other: &Layout,
    of: (u64, u64),
    letters: &[(u8, u8)],
) -> Result<(), Trouble> {
    let mut disks = disks_of(one, other)?;
    match wanted(alloc, of.0, of.1, letters) {
        Ok(wanted) => expect(alloc, &mut disks, &wanted),
        Err(trouble) => Err(trouble),
    }
}

/// A restart of disks that are laid out so names this fault.
///
/// # Errors
/// `NotRefused` where it names none, and another fault.
pub fn refuses(
    alloc: Global,
    one: &Layout,
    other: &Layout,
    wanted: RestartFault,
) -> Result<(), Trouble> {
    match disks_of(one, other) {
        Ok(mut disks) => expect_fault(alloc, &mut disks, wanted),
        Err(trouble) => Err(trouble),
    }
}

/// What was found is what was wanted.
///
/// # Errors
/// `Other` where it isn't.
pub fn is_as(alloc: Global, found: &Restored, wanted: &Restored) -> Result<(), Trouble> {
    if found.generation != wanted.generation || found.epoch != wanted.epoch {
        return Err(Trouble::Other);
    }
    have_rows(alloc, found.groups.as_slice(), wanted.groups.as_slice())
}

/// One group of these rows, each of one letter.
pub fn wanted(
    alloc: Global,
    generation: u64,
    epoch: u64,
    letters: &[(u8, u8)],
) -> Result<Restored, Trouble> {
    match table_of(alloc, letters) {
        Ok(rows) => one_group(alloc, generation, epoch, rows),
        Err(trouble) => Err(trouble),
    }
}

/// One group of these rows.
pub fn one_group(
    alloc: Global,
    generation: u64,
    epoch: u64,
    rows: RowMap,
) -> Result<Restored, Trouble> {
    match group_of(alloc, rows) {
        Ok(groups) => Ok(Restored {
            generation,
            epoch,
            groups,
        }),
        Err(trouble) => Err(trouble),
    }
}
