//! Stops while the next life of the pair is prepared.
use crate::restarts::layout::Trip;
use crate::restarts::pair::Pair;
use crate::restarts::picks::{KINDS, picks_of};
use crate::restarts::trouble::Trouble;
use host_io::{Disk, MemDisk};
use sig_core::RestartFault;
use std::alloc::Global;

/// More calls than a preparation makes on one disk.
pub const MANY: u64 = 60;

/// Power is cut at each call of a preparation in turn, on each of the disks, and leaves what picks of each
/// kind say. With `long` there are long rows too. Answers how many stops there were.
///
/// # Errors
/// What is wrong with a restart behind one.
pub fn stop_everywhere(alloc: Global, long: bool) -> Result<u64, Trouble> {
    let pair = Pair::new(alloc, long)?;
    let mut stops = 0u64;
    for kind in 0..KINDS {
        stops = stops.saturating_add(stop_by_kind(alloc, &pair, kind)?);
    }
    Ok(stops)
}

fn stop_by_kind(alloc: Global, pair: &Pair, kind: u64) -> Result<u64, Trouble> {
    let picks = picks_of(alloc, kind)?;
    Ok(stop_on(pair, 1, &picks)?.saturating_add(stop_on(pair, 2, &picks)?))
}

// Stops at each call on the disk of a node.
fn stop_on(pair: &Pair, node: u8, picks: &[u8]) -> Result<u64, Trouble> {
    let mut stops = 0u64;
    for call in 0..MANY {
        let mut disks = pair.tripping(node, Trip::From(call), picks)?;
        if stop_once(pair, &mut disks)? {
            stops = stops.saturating_add(1);
        }
    }
    Ok(stops)
}

// Restores and prepares, until a call fails; cuts power; restores, prepares and restores again. Whether a
// call failed.
fn stop_once(pair: &Pair, disks: &mut [MemDisk; 2]) -> Result<bool, Trouble> {
    let stopped = begin(pair, disks)?;
    for disk in &mut *disks {
        disk.cut_power();
    }
    pair.go_on(disks, if stopped { 1 } else { 2 })?;
    Ok(stopped)
}

fn begin(pair: &Pair, disks: &mut [MemDisk; 2]) -> Result<bool, Trouble> {
    match pair.begin(disks) {
        Ok(()) => Ok(false),
        Err(Trouble::Fault(RestartFault::DiskFault { .. })) => Ok(true),
        Err(trouble) => Err(trouble),
    }
}
