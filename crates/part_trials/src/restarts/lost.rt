//! Disks whose system slots are all lost, and disks that never had one.
use crate::restarts::layout::{Layout, Trip, slot_without_redo};
use crate::restarts::picks::{KINDS, picks_of};
use crate::restarts::restart::{expect, gives, is_as, prepare_pair, refuses, restore_pair, wanted};
use crate::restarts::stops::MANY;
use crate::restarts::trouble::Trouble;
use host_io::{Disk, MemDisk};
use sig_core::RestartFault;
use std::alloc::Global;
use sys_restart::Restored;
use sysfile_core::SYSTEM_FILE;

/// Where a control slot says that rows were saved, at either place, a cluster without a system slot isn't begun anew;
/// the first such node is named, and what its system file begins with. A slot that saved nothing, or is damaged, says
/// nothing.
pub fn lost_system_slots(alloc: Global) -> Result<(), Trouble> {
    both_are_lost(alloc)?;
    one_is_lost(alloc)?;
    none_is_lost(alloc)
}

fn both_are_lost(alloc: Global) -> Result<(), Trouble> {
    let first = layout_with(alloc, 0, 5)?;
    let second = layout_with(alloc, 4_096, 1)?;
    refuses(alloc, &first, &second, lost(1, 0))
}

fn one_is_lost(alloc: Global) -> Result<(), Trouble> {
    let none = layout_with(alloc, 0, 0)?;
    let mut closed = layout_with(alloc, 4_096, 1)?;
    lay_closed(&mut closed)?;
    refuses(alloc, &none, &closed, lost(2, 7))
}

fn lay_closed(closed: &mut Layout) -> Result<(), Trouble> {
    closed.control(0, &slot_without_redo(2, 1, 1, 0, 0))?;
    closed.put(SYSTEM_FILE, 0, &[7])
}

fn none_is_lost(alloc: Global) -> Result<(), Trouble> {
    let mut none = layout_with(alloc, 0, 0)?;
    none.put(1, 4_096, &[0x4e; 56])?;
    gives(alloc, &none, &none, (0, 0), &[])
}

// A disk with a control slot of the first life, and no system slot.
fn layout_with(alloc: Global, at: u64, saved: u64) -> Result<Layout, Trouble> {
    let mut layout = Layout::new(alloc);
    match layout.control(at, &slot_without_redo(2, 1, 1, saved, 0)) {
        Ok(()) => Ok(layout),
        Err(trouble) => Err(trouble),
    }
}

fn lost(node: u8, byte: u8) -> RestartFault {
    RestartFault::Damaged {
        node,
        file: SYSTEM_FILE,
        at: 0,
        byte,
    }
}

/// A cluster whose first life was stopped at any call of its preparation is begun again.
///
/// # Errors
/// What is wrong with a restart behind a stop.
pub fn first_life_stopped(alloc: Global) -> Result<(), Trouble> {
    for kind in 0..KINDS {
        for call in 0..MANY {
            stop_first(alloc, kind, call, 1)?;
            stop_first(alloc, kind, call, 2)?;
        }
    }
    Ok(())
}

fn stop_first(alloc: Global, kind: u64, call: u64, node: u8) -> Result<(), Trouble> {
    let mut disks = first_disks(alloc, kind, call, node)?;
    begin_until_stopped(alloc, &mut disks)?;
    for disk in &mut disks {
        disk.cut_power();
    }
    begin_again(alloc, &mut disks)
}

// Disks that were never written, of which that of a node stops at a call.
fn first_disks(alloc: Global, kind: u64, call: u64, node: u8) -> Result<[MemDisk; 2], Trouble> {
    let picks = picks_of(alloc, kind)?;
    let none = Layout::new(alloc);
    let stopped = none.tripping(Trip::From(call), &picks)?;
    let other = none.disk()?;
    Ok(match node {
        1 => [stopped, other],
        _ => [other, stopped],
    })
}

fn begin_until_stopped(alloc: Global, disks: &mut [MemDisk; 2]) -> Result<(), Trouble> {
    let nothing = wanted(alloc, 0, 0, &[])?;
    expect_or_stop(prepare_pair(alloc, disks, &nothing))
}

fn expect_or_stop(ended: Result<(), Trouble>) -> Result<(), Trouble> {
    match ended {
        Err(Trouble::Fault(RestartFault::DiskFault { .. })) => Ok(()),
        ended => ended,
    }
}

// What is restored is without rows, and so is the life that is prepared behind it.
fn begin_again(alloc: Global, disks: &mut [MemDisk; 2]) -> Result<(), Trouble> {
    let generation = prepare_behind(alloc, disks)?;
    let next = wanted(alloc, generation.saturating_add(1), 0, &[])?;
    expect(alloc, disks, &next)
}

// What is restored is without rows, and of generation 0 or 1, which is told. The next life is prepared.
fn prepare_behind(alloc: Global, disks: &mut [MemDisk; 2]) -> Result<u64, Trouble> {
    let found = restore_pair(alloc, disks)?;
    let generation = found.generation.min(1);
    is_without_rows(alloc, &found, generation)?;
    prepare_pair(alloc, disks, &found)?;
    Ok(generation)
}

fn is_without_rows(alloc: Global, found: &Restored, generation: u64) -> Result<(), Trouble> {
    let nothing = wanted(alloc, generation, 0, &[])?;
    is_as(alloc, found, &nothing)
}
