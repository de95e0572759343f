//! What a node saves on a disk in memory, and what is restored of it, also where power is cut in between.
use crate::redo_log_log::{pair, put};
use crate::wrong::Wrong;
use host_io::{Disk, MemDisk};
use node_disk::{NodeSlots, read_slots};
use redo_log::Log;
use sig_core::{Key, Shape, Value};
use sys_restart::{prepare_life, restore};

const ALONE: Shape = Shape {
    nodes: 1,
    replicas: 1,
    fragments: 1,
};

// The disk of a cluster of one node that is prepared for its first life. From this call on its calls fail
// until power is cut, and a crash is decided by these picks in turn.
fn prepared(rt: &HostRuntime, pass: u64, picks: [u8; 2]) -> Result<[MemDisk; 1], Wrong> {
    let mut all = Vec::new(rt.alloc());
    for _ in 0..40 {
        all.extend_from_slice(&picks)?;
    }
    let mut disks = [MemDisk::fused(rt.alloc(), pass, all)?];
    let Ok(nothing) = restore(rt.alloc(), &mut disks, ALONE) else {
        return Err(Wrong::from("the disk is read"));
    };
    match prepare_life(rt.alloc(), &mut disks, ALONE, &nothing) {
        Ok(()) => Ok(disks),
        Err(_) => Err(Wrong::from("a life is prepared")),
    }
}

// The slots in use in that life.
fn slots_of(disk: &mut MemDisk) -> Result<NodeSlots, Wrong> {
    match read_slots(disk, 1) {
        Ok(Some(slots)) => Ok(slots),
        _ => Err(Wrong::from("slots are in use")),
    }
}

// The log of one row, which is committed in epoch 1.
fn log_of(rt: &HostRuntime) -> Result<Log, Wrong> {
    let mut log = Log::new(rt.alloc(), 1, 0)?;
    let (prepare, commit) = pair(Key::new(b"a")?, Value::new(b"1")?);
    if put(&mut log, &prepare, &commit) {
        Ok(log)
    } else {
        Err(Wrong::from("a pair is put"))
    }
}

// Saves epoch 1, and notes it. Says whether both went well.
fn save(rt: &HostRuntime, slots: &mut NodeSlots, disk: &mut MemDisk) -> Result<bool, Wrong> {
    let log = log_of(rt)?;
    Ok(slots.save_rows(disk, 1, &log).is_ok() && slots.save_system(disk, 1, 1).is_ok())
}

// The epoch that is restored, and the value of the row.
fn restored(rt: &HostRuntime, disks: &mut [MemDisk; 1]) -> Result<(u64, Option<Value>), Wrong> {
    let key = Key::new(b"a")?;
    match restore(rt.alloc(), disks, ALONE) {
        Ok(found) => match found.groups.as_slice().first() {
            Some(rows) => Ok((found.epoch, rows.get(&key))),
            None => Err(Wrong::from("there is a group")),
        },
        Err(_) => Err(Wrong::from("the disk is restored")),
    }
}

// Whether epoch 1 is restored, with this row.
fn restores(rt: &HostRuntime, disks: &mut [MemDisk; 1], value: Value) -> Result<bool, Wrong> {
    Ok(restored(rt, disks)? == (1, Some(value)))
}

fn are_same(found: &NodeSlots, slots: &NodeSlots) -> bool {
    found.control() == slots.control()
        && found.control_at() == slots.control_at()
        && found.system_at() == slots.system_at()
}

#[test]
fn what_is_saved_is_restored(rt: HostRuntime) -> Result<(), Wrong> {
    let value = Value::new(b"1")?;
    let mut disks = prepared(&rt, 1_000, [0, 0])?;
    let mut slots = slots_of(&mut disks[0])?;
    assert!(rt; save(&rt, &mut slots, &mut disks[0])?);
    assert!(rt; slots.control().serial == 2 && slots.control().redo_end == 48);
    disks[0].cut_power();
    assert!(rt; restores(&rt, &mut disks, value)?);
    assert!(rt; are_same(&slots_of(&mut disks[0])?, &slots));
    Ok(())
}

#[test]
fn what_is_saved_is_not_saved_again(rt: HostRuntime) -> Result<(), Wrong> {
    let mut disks = prepared(&rt, 1_000, [0, 0])?;
    let mut slots = slots_of(&mut disks[0])?;
    assert!(rt; save(&rt, &mut slots, &mut disks[0])?);
    let calls = disks[0].calls();
    assert!(rt; save(&rt, &mut slots, &mut disks[0])?);
    assert_eq!(rt; disks[0].calls(), calls);
    Ok(())
}

// The epochs of the slots in use, where calls failed from one on in the midst of a save, and power was cut.
fn left(rt: &HostRuntime, pass: u64, picks: [u8; 2]) -> Result<(u64, u64), Wrong> {
    let mut disks = prepared(rt, pass, picks)?;
    let mut slots = slots_of(&mut disks[0])?;
    let _ = save(rt, &mut slots, &mut disks[0])?;
    disks[0].cut_power();
    let found = slots_of(&mut disks[0])?;
    Ok((found.control().saved, found.system().epoch))
}

#[test]
fn a_cut_at_any_call_leaves_slots(rt: HostRuntime) -> Result<(), Wrong> {
    let mut disks = prepared(&rt, 1_000, [0, 0])?;
    let _ = slots_of(&mut disks[0])?;
    let first = disks[0].calls();
    for more in 0..17u64 {
        for picks in [[0, 0], [255, 255], [0x4e, 0x4e]] {
            let (saved, noted) = left(&rt, first.saturating_add(more), picks)?;
            assert!(rt; noted <= saved && saved <= 1, "{more}");
        }
    }
    Ok(())
}
