//! Calls that fail, and memory that is wanting, while the next life of the pair is prepared.
use crate::restarts::layout::Trip;
use crate::restarts::pair::Pair;
use crate::restarts::stops::MANY;
use crate::restarts::trouble::Trouble;
use sig_core::RestartFault;
use std::alloc::Global;

/// Each call fails in turn, on each of the disks, and none behind it. Answers how many failed.
///
/// # Errors
/// What is wrong with a restart behind one.
pub fn fail_everywhere(alloc: Global) -> Result<u64, Trouble> {
    let pair = Pair::new(alloc, false)?;
    Ok(fail_on(&pair, 1)?.saturating_add(fail_on(&pair, 2)?))
}

fn fail_on(pair: &Pair, node: u8) -> Result<u64, Trouble> {
    let mut failed = 0u64;
    for call in 0..MANY {
        if fail_once(pair, node, call)? {
            failed = failed.saturating_add(1);
        }
    }
    Ok(failed)
}

// Restores and prepares; where a call fails the disk that failed is named with its count, and all goes
// well from then on.
fn fail_once(pair: &Pair, node: u8, call: u64) -> Result<bool, Trouble> {
    let mut disks = pair.tripping(node, Trip::At(call), &[])?;
    let fault = RestartFault::DiskFault { node, count: 1 };
    match pair.begin(&mut disks) {
        Ok(()) => Ok(false),
        Err(Trouble::Fault(found)) if found == fault => {
            pair.go_on(&mut disks, 1)?;
            Ok(true)
        }
        Err(trouble) => Err(trouble),
    }
}

/// Restores and prepares once, and then goes on, wherever memory was wanting, or a disk wanted it. Answers 1, and 0
/// where that gives other rows.
///
/// # Errors
/// Memory is wanting before or behind that.
pub fn want_once(alloc: Global) -> Result<u64, Trouble> {
    let pair = Pair::new(alloc, false)?;
    let mut disks = pair.disks()?;
    let begun = pair.begin(&mut disks);
    if is_wrong(&begun) {
        return Ok(0);
    }
    match pair.go_on(&mut disks, 1) {
        Ok(()) => Ok(1),
        Err(trouble) if is_want(&trouble) => Err(Trouble::NoMemory),
        Err(_) => Ok(0),
    }
}

fn is_wrong(answer: &Result<(), Trouble>) -> bool {
    match answer {
        Ok(()) => false,
        Err(trouble) => !is_want(trouble),
    }
}

// Memory was wanting, or may have been wanting on a disk.
fn is_want(trouble: &Trouble) -> bool {
    matches!(
        trouble,
        Trouble::NoMemory | Trouble::Fault(RestartFault::DiskFault { .. })
    )
}
