//! Slots worked out by hand, each byte of them changed, slots that are cut short, and writes that are
//! stopped at each of their calls.
use crate::wrong::Wrong;
use host_io::{Disk, MemDisk};
use sig_core::{ControlSlot, ReadFault, Shape, SystemSlot};
use sysfile_core::{
    CONTROL_FILE, SYSTEM_FILE, control_bytes, read_control, read_system, system_bytes, write_slot,
};

// A system slot of two nodes, generation 1 and epoch 5.
const SYSTEM: [u8; 24] = [
    0x4e, 1, 2, 2, 4, 3, 0, 0, 0, 0, 0, 0, 0, 0, 0, 1, 0, 0, 0, 0, 0, 0, 0, 5,
];

// A control slot of generation 1, serial 2, saved epoch 3, redo from 4 to 260, and a checkpoint of 6
// bytes in file 2.
const CONTROL: [u8; 56] = [
    0x4e, 1, 2, 1, 0, 0, 0, 0, 0, 0, 0, 0, 0, 0, 0, 1, 0, 0, 0, 0, 0, 0, 0, 2, 0, 0, 0, 0, 0, 0, 0,
    3, 0, 0, 0, 0, 0, 0, 0, 4, 0, 0, 0, 0, 0, 0, 1, 4, 0, 0, 0, 0, 0, 0, 0, 6,
];

// The system slot, of another epoch.
fn system(epoch: u64) -> SystemSlot {
    SystemSlot {
        shape: Shape {
            nodes: 2,
            replicas: 2,
            fragments: 4,
        },
        mask: 3,
        generation: 1,
        epoch,
    }
}

// The control slot.
fn control() -> ControlSlot {
    ControlSlot {
        ckpt_file: 2,
        parity: 1,
        generation: 1,
        serial: 2,
        saved: 3,
        redo_start: 4,
        redo_end: 260,
        ckpt_size: 6,
    }
}

#[test]
fn slots_are_these_bytes(rt: HostRuntime) {
    assert_eq!(rt; system_bytes(&system(5)), SYSTEM);
    assert_eq!(rt; control_bytes(&control()), CONTROL);
}

// Whether the system slot is read so.
fn has_system(disk: &mut MemDisk, slot: Option<SystemSlot>) -> bool {
    read_system(disk) == Ok(slot)
}

// Whether the control slot of a generation is read so.
fn has_control(disk: &mut MemDisk, generation: u64, slot: Option<ControlSlot>) -> bool {
    read_control(disk, generation) == Ok(slot)
}

// Writes the system slot of an epoch, at the place of this number, 0 or 1, and says whether that was done.
fn writes_system(disk: &mut MemDisk, which: u8, epoch: u64) -> bool {
    which <= 1 && write_slot(disk, SYSTEM_FILE, which, &system_bytes(&system(epoch))).is_ok()
}

fn writes_control(disk: &mut MemDisk) -> bool {
    write_slot(disk, CONTROL_FILE, 1, &control_bytes(&control())).is_ok()
}

// A disk whose calls from this one on fail, until power is cut, and whose crashes these two picks
// decide in turn.
fn disk_of(rt: &HostRuntime, pass: u64, picks: [u8; 2]) -> Result<MemDisk, Wrong> {
    let mut all = Vec::new(rt.alloc());
    for _ in 0..40 {
        all.extend_from_slice(&picks)?;
    }
    Ok(MemDisk::fused(rt.alloc(), pass, all)?)
}

#[test]
fn what_is_written_is_read(rt: HostRuntime) -> Result<(), Wrong> {
    let mut disk = disk_of(&rt, 100, [0, 0])?;
    assert!(rt; has_system(&mut disk, None) && has_control(&mut disk, 1, None));
    assert!(rt; writes_system(&mut disk, 0, 5) && writes_control(&mut disk));
    assert!(rt; has_system(&mut disk, Some(system(5))));
    assert!(rt; has_control(&mut disk, 1, Some(control())));
    assert!(rt; has_control(&mut disk, 2, None));
    Ok(())
}

fn writes(disk: &mut MemDisk, file: u8, at: u64, bytes: &[u8]) -> bool {
    disk.write(file, at, bytes).is_ok()
}

// A disk with these bytes in a file, and then another byte at a place.
fn disk_with(
    rt: &HostRuntime,
    file: u8,
    slot: &[u8],
    at: u64,
    byte: &[u8],
) -> Result<MemDisk, Wrong> {
    let mut disk = disk_of(rt, 100, [0, 0])?;
    if writes(&mut disk, file, 0, slot) && writes(&mut disk, file, at, byte) {
        Ok(disk)
    } else {
        Err(Wrong::from("the bytes are written"))
    }
}

// The place at which a slot was found damaged.
fn damage_of<S>(read: &Result<Option<S>, ReadFault>) -> Option<u64> {
    match read {
        Err(ReadFault::Damaged { at, .. }) => Some(*at),
        _ => None,
    }
}

// Where the system slot is damaged with another byte at this place.
fn system_damage(at: u64, byte: u8) -> Option<u64> {
    let fine = match at {
        1 => byte == 1,
        2 => 1 <= byte && byte <= 8,
        3 => byte == 1 || byte == 2,
        4 => 1 <= byte && byte <= 32,
        5 => 1 <= byte && byte <= 3,
        6 | 7 => byte == 0,
        _ => true,
    };
    // two replicas don't divide an odd number of nodes, and node 2 isn't one of a single one
    if at == 2 && fine && byte % 2 == 1 {
        Some(3)
    } else if fine {
        None
    } else {
        Some(at)
    }
}

// What is read where another byte stands at a place of the system slot.
fn system_with(
    rt: &HostRuntime,
    at: u64,
    byte: u8,
) -> Result<Result<Option<SystemSlot>, ReadFault>, Wrong> {
    let mut disk = disk_with(rt, SYSTEM_FILE, &SYSTEM, at, &[byte])?;
    Ok(read_system(&mut disk))
}

// The first byte at a place of the system slot that isn't told as it is to be.
fn wrong_in_system(rt: &HostRuntime, at: u64) -> Result<Option<u8>, Wrong> {
    for byte in 0..=255u8 {
        if damage_of(&system_with(rt, at, byte)?) != system_damage(at, byte) {
            return Ok(Some(byte));
        }
    }
    Ok(None)
}

#[test]
fn each_changed_byte_of_a_system_slot_is_named(rt: HostRuntime) -> Result<(), Wrong> {
    for at in 1..24u64 {
        assert_eq!(rt; wrong_in_system(&rt, at)?, None, "{at}");
    }
    let damaged = ReadFault::Damaged {
        file: 0,
        at: 5,
        byte: 9,
    };
    assert!(rt; system_with(&rt, 5, 9)? == Err(damaged));
    assert!(rt; system_with(&rt, 0, 0)? == Ok(None));
    Ok(())
}

// Where the control slot is damaged with another byte at this place.
fn control_damage(at: u64, byte: u8) -> Option<u64> {
    let fine = match at {
        1 => byte == 1,
        2 => byte == 2 || byte == 3,
        3 | 38 => byte <= 1,
        4..=7 | 32..=37 | 40..=44 => byte == 0,
        _ => true,
    };
    if fine {
        None
    } else if at < 8 {
        Some(at)
    } else {
        Some(40)
    }
}

// What is read where another byte stands at a place of the control slot.
fn control_with(
    rt: &HostRuntime,
    at: u64,
    byte: u8,
) -> Result<Result<Option<ControlSlot>, ReadFault>, Wrong> {
    let mut disk = disk_with(rt, CONTROL_FILE, &CONTROL, at, &[byte])?;
    Ok(read_control(&mut disk, 1))
}

// The first byte at a place of the control slot that isn't told as it is to be.
fn wrong_in_control(rt: &HostRuntime, at: u64) -> Result<Option<u8>, Wrong> {
    for byte in 0..=255u8 {
        if damage_of(&control_with(rt, at, byte)?) != control_damage(at, byte) {
            return Ok(Some(byte));
        }
    }
    Ok(None)
}

#[test]
fn each_changed_byte_of_a_control_slot_is_named(rt: HostRuntime) -> Result<(), Wrong> {
    for at in 1..56u64 {
        assert_eq!(rt; wrong_in_control(&rt, at)?, None, "{at}");
    }
    assert!(rt; control_with(&rt, 0, 0)? == Ok(None));
    Ok(())
}

// Whether none is read of the first bytes of the system slot.
fn is_no_system(rt: &HostRuntime, bytes: &[u8]) -> Result<bool, Wrong> {
    let mut disk = disk_with(rt, SYSTEM_FILE, bytes, 0, &[])?;
    Ok(has_system(&mut disk, None))
}

// Whether none is read of the first bytes of the control slot.
fn is_no_control(rt: &HostRuntime, bytes: &[u8]) -> Result<bool, Wrong> {
    let mut disk = disk_with(rt, CONTROL_FILE, bytes, 0, &[])?;
    Ok(has_control(&mut disk, 1, None))
}

#[test]
fn a_slot_that_is_cut_short_is_none(rt: HostRuntime) -> Result<(), Wrong> {
    for len in 0..24 {
        assert!(rt; is_no_system(&rt, &SYSTEM[..len])?, "{len}");
    }
    for len in 0..56 {
        assert!(rt; is_no_control(&rt, &CONTROL[..len])?, "{len}");
    }
    Ok(())
}

// The epoch that is read where slots of the epochs 4, 5 and 6 were to be written in turn, calls failed
// from one on, and power was cut.
fn epoch_left(rt: &HostRuntime, pass: u64, picks: [u8; 2]) -> Result<u64, Wrong> {
    let mut disk = disk_of(rt, pass, picks)?;
    for epoch in 4..7u64 {
        writes_system(&mut disk, (epoch % 2) as u8, epoch);
    }
    disk.cut_power();
    match read_system(&mut disk) {
        Ok(Some(slot)) => Ok(slot.epoch),
        _ => Ok(0),
    }
}

// Whether the last slot that was written is left where calls failed from this one on, or the next one,
// which was opened. Each write reads the gate, and makes six calls.
fn leaves_a_slot(rt: &HostRuntime, pass: u64, picks: [u8; 2]) -> Result<bool, Wrong> {
    let left = epoch_left(rt, pass, picks)?;
    let written = (pass / 7).saturating_add(3);
    Ok(left == written || 5 <= pass % 7 && left == written.saturating_add(1))
}

#[test]
fn a_stop_at_any_call_leaves_a_slot(rt: HostRuntime) -> Result<(), Wrong> {
    for pass in 7..22u64 {
        for picks in [[0, 0], [255, 255], [0, 255], [0x4e, 0x4e]] {
            assert!(rt; leaves_a_slot(&rt, pass, picks)?, "{pass}");
        }
    }
    Ok(())
}
