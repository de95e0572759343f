ghost use Rattle.std.specs.Prelude.{◌≤◌};

use crate::redo_log_log::{pair, put};
use crate::redo_log_replaying::PAIR;
use crate::wrong::Wrong;
use host_io::{Disk, MemDisk};
use redo_log::{Log, replay};
use row_map::RowMap;
use sig_core::{Journal, Key, ReadFault, Redo, Value};

// A disk whose calls with these numbers fail, and of which a crash leaves nothing that isn't synced.
fn disk_of(rt: &HostRuntime, fails: &[u64]) -> Result<MemDisk, Wrong> {
    let fails = fails.to_vec(rt.alloc())?;
    Ok(MemDisk::new(rt.alloc(), fails, Vec::new(rt.alloc()))?)
}

fn writes(disk: &mut MemDisk, file: u8, at: u64, bytes: &[u8]) -> bool {
    disk.write(file, at, bytes).is_ok()
}

// Writes the next piece of a log to a disk. Where there is none the log is cut at its end. Says whether
// there was one; nothing where that failed.
fn save_next(log: &mut Log, disk: &mut MemDisk) -> Option<bool> {
    match log.flush_step() {
        Ok(Some(piece)) => {
            let done = writes(disk, piece.file, piece.at, piece.bytes.as_slice());
            if done { Some(true) } else { None }
        }
        Ok(None) => {
            let end = log.end();
            log.cut_to(end);
            Some(false)
        }
        Err(_) => None,
    }
}

// Writes all pieces of a log to a disk, and cuts the log at its end.
fn save(log: &mut Log, disk: &mut MemDisk) -> bool {
    for _ in 0..1_000 {
        match save_next(log, disk) {
            Some(true) => {}
            Some(false) => return true,
            None => return false,
        }
    }
    false
}

// Appends a pair, and saves it.
fn puts(log: &mut Log, disk: &mut MemDisk, pair: &(Redo, Redo)) -> bool {
    put(log, &pair.0, &pair.1) && save(log, disk)
}

// Appends 10,000 pairs, and saves them.
fn round(log: &mut Log, disk: &mut MemDisk, many: &(Redo, Redo)) -> bool {
    for _ in 0..10_000 {
        if !put(log, &many.0, &many.1) {
            return false;
        }
    }
    save(log, disk)
}

// What replay between two places of the log answers, and whether it made the row of `a`.
fn replayed(
    rt: &HostRuntime,
    disk: &mut MemDisk,
    parity: u8,
    from: u64,
    to: u64,
) -> Result<(Result<(), ReadFault>, bool), Wrong>
    requires parity { parity ≤ 1 }
    requires order { from ≤ to }
{
    let key = Key::new(b"a")?;
    let mut rows = RowMap::new(rt.alloc());
    let done = replay(rt.alloc(), &mut rows, disk, parity, from, to, 1);
    Ok((done, rows.get(&key).is_some()))
}

#[test]
fn what_went_round_the_ring_is_replayed(rt: HostRuntime) -> Result<(), Wrong> {
    let mut disk = disk_of(&rt, &[])?;
    let mut log = Log::new(rt.alloc(), 1, 0)?;
    let many = pair(Key::new(&[b'k'; 32])?, Value::new(&[b'v'; 200])?);
    for _ in 0..7 {
        assert!(rt; round(&mut log, &mut disk, &many));
    }
    let last = pair(Key::new(b"a")?, Value::new(b"1")?);
    assert!(rt; puts(&mut log, &mut disk, &last));
    let rows = ring_rows(&rt, &mut disk)?;
    let long = Key::new(&[b'k'; 32])?;
    assert!(rt; rows.get(&long) == Some(Value::new(&[b'v'; 200])?));
    assert!(rt; rows.get(&Key::new(b"a")?).is_some());
    Ok(())
}

// What replay makes of the last turn of the ring.
fn ring_rows(rt: &HostRuntime, disk: &mut MemDisk) -> Result<RowMap, Wrong> {
    let mut rows = RowMap::new(rt.alloc());
    match replay(rt.alloc(), &mut rows, disk, 0, 9_270_000, 21_630_048, 1) {
        Ok(()) => Ok(rows),
        Err(_) => Err(Wrong::from("the log is replayed")),
    }
}

#[test]
fn what_is_synced_is_replayed_after_a_crash(rt: HostRuntime) -> Result<(), Wrong> {
    let mut disk = disk_of(&rt, &[])?;
    let mut log = Log::new(rt.alloc(), 1, 1)?;
    let first = pair(Key::new(b"a")?, Value::new(b"1")?);
    let second = pair(Key::new(b"b")?, Value::new(b"2")?);
    assert!(rt; puts(&mut log, &mut disk, &first) && syncs(&mut disk));
    assert!(rt; puts(&mut log, &mut disk, &second));
    disk.cut_power();
    assert_eq!(rt; replayed(&rt, &mut disk, 1, 0, 48)?, (Ok(()), true));
    let lost = ReadFault::Damaged {
        file: 8,
        at: 48,
        byte: 0,
    };
    assert_eq!(rt; replayed(&rt, &mut disk, 1, 0, 96)?.0, Err(lost));
    Ok(())
}

fn syncs(disk: &mut MemDisk) -> bool {
    disk.sync(8).is_ok()
}

// What replay answers of the first bytes of the pair, where 48 are to be there, and whether it made
// a row.
fn answer(rt: &HostRuntime, len: usize, from: u64) -> Result<(Result<(), ReadFault>, bool), Wrong> {
    let mut disk = disk_of(rt, &[])?;
    if len > 48 || from > 48 || !writes(&mut disk, 8, 0, &PAIR[..len]) {
        return Err(Wrong::from("the bytes are written"));
    }
    replayed(rt, &mut disk, 1, from, 48)
}

#[test]
fn a_file_that_ends_early_is_damaged_there(rt: HostRuntime) -> Result<(), Wrong> {
    for len in 0..48 {
        let damaged = ReadFault::Damaged {
            file: 8,
            at: len as u64,
            byte: 0,
        };
        assert_eq!(rt; answer(&rt, len, 0)?, (Err(damaged), false));
    }
    assert_eq!(rt; answer(&rt, 48, 0)?, (Ok(()), true));
    Ok(())
}

#[test]
fn a_commit_without_its_prepare_makes_no_row(rt: HostRuntime) -> Result<(), Wrong> {
    assert_eq!(rt; answer(&rt, 48, 22)?, (Ok(()), false));
    Ok(())
}

// What replay answers of the pair across the end of a file, where these calls fail, of which those
// of replay begin with the third, and whether it made a row.
fn across(rt: &HostRuntime, fails: &[u64]) -> Result<(Result<(), ReadFault>, bool), Wrong> {
    let mut disk = disk_of(rt, fails)?;
    let written = writes(&mut disk, 4, 4_194_280, &PAIR[..24])
        && writes(&mut disk, 5, 0, &PAIR[24..]);
    if !written {
        return Err(Wrong::from("the bytes are written"));
    }
    replayed(rt, &mut disk, 0, 4_194_280, 4_194_328)
}

#[test]
fn a_fault_of_the_disk_makes_no_row(rt: HostRuntime) -> Result<(), Wrong> {
    let fault = ReadFault::DiskFault { count: 1 };
    assert_eq!(rt; across(&rt, &[2])?, (Err(fault), false));
    assert_eq!(rt; across(&rt, &[3])?, (Err(fault), false));
    assert_eq!(rt; across(&rt, &[4])?, (Ok(()), true));
    Ok(())
}
