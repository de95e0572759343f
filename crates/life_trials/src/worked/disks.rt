//! The disks of a run.
use crate::worked::line::{DiskByte, Line};
use host_io::{Disk, Failed, MemDisk};
use sig_core::NoMemory;
use std::alloc::Global;

/// Disks of so many nodes that were never written, as the lines of a run say that they are.
///
/// # Errors
/// `NoMemory`.
pub fn fresh_disks(alloc: Global, lines: &[Line], nodes: u8) -> Result<Vec<MemDisk>, NoMemory> {
    let mut disks = Vec::new(alloc);
    for node in 1..=nodes {
        let fails = fails_of(alloc, lines, node)?;
        let picks = picks_of(alloc, lines, node)?;
        disks.push(MemDisk::new(alloc, fails, picks)?)?;
    }
    Ok(disks)
}

// The numbers of the calls of a node's disk that fail.
fn fails_of(alloc: Global, lines: &[Line], of: u8) -> Result<Vec<u64>, NoMemory> {
    let mut fails = Vec::new(alloc);
    for line in lines {
        match line {
            Line::Fail { node, call } if *node == of => fails.push(*call)?,
            _ => {}
        }
    }
    Ok(fails)
}

// What decides what cuts of power leave of a node's disk.
fn picks_of(alloc: Global, lines: &[Line], of: u8) -> Result<Vec<u8>, NoMemory> {
    let mut picks = Vec::new(alloc);
    for line in lines {
        match line {
            Line::Lay { node, pick } if *node == of => picks.push(*pick)?,
            _ => {}
        }
    }
    Ok(picks)
}

/// Power is cut of all disks.
pub fn cut_all(disks: &mut [MemDisk]) {
    for disk in disks {
        disk.cut_power();
    }
}

/// A byte of a disk is changed, and stays so. Gives the byte that stood there; where there is none, or a call of
/// the disk fails, none.
pub fn change(disks: &mut [MemDisk], place: &DiskByte) -> Option<u8> {
    let at = usize::from(place.node).wrapping_sub(1);
    change_on(disks.get_mut(at)?, place).ok()?
}

fn change_on(disk: &mut MemDisk, place: &DiskByte) -> Result<Option<u8>, Failed> {
    let mut byte = [0u8; 1];
    if disk.read(place.file, place.at, &mut byte)? == 0 {
        return Ok(None);
    }
    disk.write(place.file, place.at, &[!byte[0]])?;
    disk.sync(place.file)?;
    Ok(Some(byte[0]))
}
