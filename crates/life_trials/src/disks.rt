//! Disks whose calls fail, and of which cuts of power leave something.
ghost use Rattle.std.specs.Prelude.{◌<◌};

use host_io::{Disk, MemDisk};
use life_judge::Dice;
use std::alloc::{AllocError, Global};

/// What decides what cuts of power leave of a disk, for many places.
const PICKS: u32 = 2_000;
/// A disk is called about so often in a run, at most.
const CALLS: u64 = 700;
/// Of a hundred disks so many have calls that fail, where they do at random.
const FAILING: u64 = 40;

/// Which calls fail, and what cuts of power leave of what isn't synced.
#[derive(Clone, Copy)]
pub struct Fuse {
    /// The node whose disk it is; 0 where all disks fail so.
    pub node: u8,
    /// The number of the first call that fails.
    pub call: u64,
    /// Whether it alone fails, and not all behind it, until power is cut.
    pub once: bool,
    pub leaves: Leaves,
}

/// What cuts of power leave of what isn't synced.
#[derive(Clone, Copy)]
pub enum Leaves {
    Nothing,
    All,
    EveryOther,
}

/// Disks of so many nodes that were never written, and never fail.
///
/// # Errors
/// Want of memory.
pub fn sound_disks(alloc: Global, nodes: u8) -> Result<Vec<MemDisk>, AllocError> {
    let mut disks = Vec::new(alloc);
    for _ in 0..nodes {
        disks.push(MemDisk::new(alloc, Vec::new(alloc), Vec::new(alloc))?)?;
    }
    Ok(disks)
}

/// Disks of so many nodes that were never written. Of some of them calls are to fail: some, or all of a while.
///
/// # Errors
/// Want of memory.
pub fn drawn_disks(alloc: Global, dice: &mut Dice, nodes: u8) -> Result<Vec<MemDisk>, AllocError> {
    let mut disks = Vec::new(alloc);
    for _ in 0..nodes {
        let fails = fails_of(alloc, dice)?;
        let picks = picks_of(alloc, dice)?;
        disks.push(MemDisk::new(alloc, fails, picks)?)?;
    }
    Ok(disks)
}

fn fails_of(alloc: Global, dice: &mut Dice) -> Result<Vec<u64>, AllocError> {
    let mut numbers = Vec::new(alloc);
    if dice.roll(100) >= FAILING {
        return Ok(numbers);
    }
    for _ in 0..dice.roll(4) {
        let first = dice.roll(CALLS);
        let count = if dice.roll(2) == 0 { 1 } else { dice.roll(60) };
        for more in 0..count {
            numbers.push(first.saturating_add(more))?;
        }
    }
    Ok(numbers)
}

fn picks_of(alloc: Global, dice: &mut Dice) -> Result<Vec<u8>, AllocError> {
    let kind = dice.roll(5);
    let mut picks = Vec::new(alloc);
    for _ in 0..PICKS {
        let drawn = dice.roll(256) as u8;
        picks.push(match kind {
            0 => 0,
            1 => 255,
            2 => if drawn % 2 == 0 { 0x4e } else { 0 },
            _ => drawn,
        })?;
    }
    Ok(picks)
}

/// Disks of so many nodes that were never written, of which calls fail by a fuse.
///
/// # Errors
/// Want of memory.
pub fn fused_disks(alloc: Global, fuse: Fuse, nodes: u8) -> Result<Vec<MemDisk>, AllocError> {
    let mut disks = Vec::new(alloc);
    for node in 1..=nodes {
        let picks = picks_that_leave(alloc, fuse.leaves)?;
        let burns = fuse.node == 0 || fuse.node == node;
        disks.push(fused_disk(alloc, burns, fuse, picks)?)?;
    }
    Ok(disks)
}

fn fused_disk(
    alloc: Global,
    burns: bool,
    fuse: Fuse,
    picks: Vec<u8>,
) -> Result<MemDisk, AllocError> {
    if burns && !fuse.once {
        return MemDisk::fused(alloc, fuse.call, picks);
    }
    let mut fails = Vec::new(alloc);
    if burns {
        fails.push(fuse.call)?;
    }
    MemDisk::new(alloc, fails, picks)
}

fn picks_that_leave(alloc: Global, leaves: Leaves) -> Result<Vec<u8>, AllocError> {
    let mut picks = Vec::new(alloc);
    for at in 0..PICKS {
        picks.push(match leaves {
            Leaves::Nothing => 0,
            Leaves::All => 255,
            Leaves::EveryOther => if at % 2 == 0 { 255 } else { 0 },
        })?;
    }
    Ok(picks)
}

/// Power is cut of all disks.
pub fn cut_all(disks: &mut [MemDisk]) {
    for disk in disks {
        disk.cut_power();
    }
}

/// Whether a call of one of them failed.
pub fn has_failed(disks: &[MemDisk]) -> bool {
    for disk in disks {
        if disk.faults() > 0 {
            return true;
        }
    }
    false
}
