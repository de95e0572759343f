//! The greatest numbers and the longest words that a life may have.
use crate::restarts::layout::{Layout, disks_of};
use crate::restarts::long_rows::put_long_rows;
use crate::restarts::restart::{expect, one_group, prepare_pair, wanted};
use crate::restarts::trouble::Trouble;
use host_io::{FILES, MemDisk};
use row_map::RowMap;
use sig_core::RestartFault;
use std::alloc::Global;
use sys_restart::Restored;

/// No life follows a greater epoch: the upper half, which is the number of its checkpoint, would be the last.
const LAST_EPOCH: u64 = ((u32::MAX as u64) << 32) - 1;

/// The greatest generation and epoch that a life may follow, with the longest words, and no life behind that.
pub fn the_greatest_numbers(alloc: Global) -> Result<(), Trouble> {
    let none = Layout::new(alloc);
    let mut disks = disks_of(&none, &none)?;
    refuses_before_any_call(alloc, &mut disks)?;
    prepare_last(alloc, &mut disks)?;
    is_the_last(alloc, &mut disks)
}

fn prepare_last(alloc: Global, disks: &mut [MemDisk; 2]) -> Result<(), Trouble> {
    let before = life(alloc, u64::MAX - 1)?;
    prepare_pair(alloc, disks, &before)
}

fn refuses_before_any_call(alloc: Global, disks: &mut [MemDisk; 2]) -> Result<(), Trouble> {
    is_used_up(alloc, disks, &wanted(alloc, 1, LAST_EPOCH + 1, &[])?)?;
    is_uncalled(disks)
}

fn is_the_last(alloc: Global, disks: &mut [MemDisk; 2]) -> Result<(), Trouble> {
    let last = life(alloc, u64::MAX)?;
    expect(alloc, disks, &last)?;
    is_used_up(alloc, disks, &last)
}

fn life(alloc: Global, generation: u64) -> Result<Restored, Trouble> {
    let mut rows = RowMap::new(alloc);
    match put_long_rows(&mut rows) {
        Ok(()) => one_group(alloc, generation, LAST_EPOCH, rows),
        Err(trouble) => Err(trouble),
    }
}

// No life follows this.
fn is_used_up(alloc: Global, disks: &mut [MemDisk; 2], last: &Restored) -> Result<(), Trouble> {
    let fault = RestartFault::UsedUp {
        generation: last.generation,
        epoch: last.epoch,
    };
    match prepare_pair(alloc, disks, last) {
        Ok(()) => Err(Trouble::NotRefused),
        Err(Trouble::Fault(found)) if found == fault => Ok(()),
        Err(trouble) => Err(trouble),
    }
}

// No call was made on the disks, but for those of their laying out.
fn is_uncalled(disks: &[MemDisk; 2]) -> Result<(), Trouble> {
    let [one, other] = disks;
    if one.calls() == FILES as u64 && other.calls() == FILES as u64 {
        Ok(())
    } else {
        Err(Trouble::NotRefused)
    }
}
