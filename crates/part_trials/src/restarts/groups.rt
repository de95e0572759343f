//! Three groups of two nodes each.
use crate::restarts::layout::Layout;
use crate::restarts::restart::is_as;
use crate::restarts::rows::{key_of, put_letter};
use crate::restarts::trouble::Trouble;
use frag_map::holds;
use host_io::{Disk, MemDisk};
use row_map::RowMap;
use sig_core::{RestartFault, Seq, Shape};
use std::alloc::Global;
use sys_restart::{Restored, prepare_life, restore};
use sysfile_core::{CLOSED, CONTROL_FILE, OPEN, OWNER, place_of};

const SIX: Shape = Shape {
    nodes: 6,
    replicas: 2,
    fragments: 7,
};

/// Rows of all groups come back, and each node has those of its own. Where disks have changed places a restart is
/// refused, or gives the same rows where they don't tell whose they are.
pub fn three_groups(alloc: Global) -> Result<(), Trouble> {
    let mut disks = six_disks(alloc)?;
    try_six(alloc, &mut disks)
}

fn try_six(alloc: Global, disks: &mut [MemDisk]) -> Result<(), Trouble> {
    prepare_letters(alloc, disks)?;
    gives_letters(alloc, disks)?;
    each_row_stands_twice(disks)?;
    exchanged_disks(alloc, disks)?;
    forget_owners(disks)?;
    exchanged_without_owners(alloc, disks)
}

// The first life has all letters.
fn prepare_letters(alloc: Global, disks: &mut [MemDisk]) -> Result<(), Trouble> {
    let first = letters(alloc, 1)?;
    prepare_six(alloc, disks, &first)
}

// A restart gives them back.
fn gives_letters(alloc: Global, disks: &mut [MemDisk]) -> Result<(), Trouble> {
    let found = restore_six(alloc, disks)?;
    let wanted = letters(alloc, 2)?;
    is_as(alloc, &found, &wanted)
}

fn forget_owners(disks: &mut [MemDisk]) -> Result<(), Trouble> {
    for disk in disks {
        forget_owner(disk)?;
    }
    Ok(())
}

// Where disks have changed places a restart names the first node that has another's.
fn exchanged_disks(alloc: Global, disks: &mut [MemDisk]) -> Result<(), Trouble> {
    exchange(disks, 0, 1)?;
    is_anothers(alloc, disks, 1, 2)?;
    exchange(disks, 0, 1)?;
    exchange(disks, 2, 5)?;
    is_anothers(alloc, disks, 3, 6)?;
    exchange(disks, 2, 5)
}

// A restart is refused since this node's disk is another's.
fn is_anothers(alloc: Global, disks: &mut [MemDisk], node: u8, owner: u8) -> Result<(), Trouble> {
    let wanted = RestartFault::Damaged {
        node,
        file: CONTROL_FILE,
        at: 8_193,
        byte: owner,
    };
    is_refused_so(alloc, disks, wanted)
}

// A disk doesn't tell whose it is, as those of before.
fn forget_owner(disk: &mut MemDisk) -> Result<(), Trouble> {
    if disk
        .write(CONTROL_FILE, place_of(OWNER), &[CLOSED])
        .is_err()
        || disk.sync(CONTROL_FILE).is_err()
    {
        return Err(Trouble::Layout);
    }
    Ok(())
}

// Where they don't tell whose they are a restart gives the same rows, or names the first node that has those of another
// group.
fn exchanged_without_owners(alloc: Global, disks: &mut [MemDisk]) -> Result<(), Trouble> {
    exchange(disks, 0, 1)?;
    gives_letters(alloc, disks)?;
    exchange(disks, 1, 3)?;
    is_refused(alloc, disks, 2)?;
    exchange(disks, 1, 3)?;
    exchange(disks, 2, 4)?;
    is_refused(alloc, disks, 3)?;
    exchange(disks, 0, 5)?;
    is_refused(alloc, disks, 1)
}

fn exchange(disks: &mut [MemDisk], one: usize, other: usize) -> Result<(), Trouble> {
    if one >= disks.len() || other >= disks.len() {
        return Err(Trouble::Layout);
    }
    disks.swap(one, other);
    Ok(())
}

// A restart is refused by what is wrong with this node's disk, whose control slot stands at place 0.
fn is_refused(alloc: Global, disks: &mut [MemDisk], node: u8) -> Result<(), Trouble> {
    let wanted = RestartFault::Damaged {
        node,
        file: CONTROL_FILE,
        at: 0,
        byte: OPEN,
    };
    is_refused_so(alloc, disks, wanted)
}

fn is_refused_so(
    alloc: Global,
    disks: &mut [MemDisk],
    wanted: RestartFault,
) -> Result<(), Trouble> {
    match restore_six(alloc, disks) {
        Ok(_) => Err(Trouble::NotRefused),
        Err(Trouble::Fault(found)) if found == wanted => Ok(()),
        Err(trouble) => Err(trouble),
    }
}

fn six_disks(alloc: Global) -> Result<Vec<MemDisk>, Trouble> {
    let none = Layout::new(alloc);
    let mut disks = Vec::new(alloc);
    for _ in 0..6 {
        disks.push(none.disk()?)?;
    }
    Ok(disks)
}

fn prepare_six(alloc: Global, disks: &mut [MemDisk], restored: &Restored) -> Result<(), Trouble> {
    if disks.len() != 6 {
        return Err(Trouble::Layout);
    }
    match prepare_life(alloc, disks, SIX, restored) {
        Ok(()) => Ok(()),
        Err(fault) => Err(Trouble::from(fault)),
    }
}

fn restore_six(alloc: Global, disks: &mut [MemDisk]) -> Result<Restored, Trouble> {
    if disks.len() != 6 {
        return Err(Trouble::Layout);
    }
    match restore(alloc, disks, SIX) {
        Ok(found) => Ok(found),
        Err(fault) => Err(Trouble::from(fault)),
    }
}

// All letters, each in its group, in epoch 9 of a generation.
fn letters(alloc: Global, generation: u64) -> Result<Restored, Trouble> {
    let mut groups = Seq::new(alloc);
    for node in [1, 3, 5] {
        groups.push(letters_of(alloc, node)?)?;
    }
    Ok(Restored {
        generation,
        epoch: 9,
        groups,
    })
}

// The letters that a node's group has, each with itself as its value.
fn letters_of(alloc: Global, node: u8) -> Result<RowMap, Trouble> {
    let mut rows = RowMap::new(alloc);
    for letter in b'a'..=b'z' {
        if holds(node, &key_of(letter)?, &SIX) {
            put_letter(&mut rows, letter, letter)?;
        }
    }
    Ok(rows)
}

// Each of 26 rows of 12 bytes stands on two disks, behind a head of 2 bytes; none has all, and none has none.
fn each_row_stands_twice(disks: &mut [MemDisk]) -> Result<(), Trouble> {
    let mut all = 0u64;
    for disk in disks {
        let size = disk.size(2).unwrap_or(0);
        if size == 2 || size == 314 {
            return Err(Trouble::Other);
        }
        all = all.saturating_add(size);
    }
    if all == 636 {
        Ok(())
    } else {
        Err(Trouble::Other)
    }
}
