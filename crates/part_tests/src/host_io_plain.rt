//! A disk in memory against plain arrays, over many random calls.
use crate::wrong::Wrong;
use host_io::{Disk, MemDisk};

// Reads the file. A read that was to fail is made again.
fn reads(disk: &mut MemDisk, now: &mut [u8; 64]) -> bool {
    disk.read(3, 0, now) == Ok(64) || disk.read(3, 0, now) == Ok(64)
}

// Whether both are the same but for what is dirty.
fn agree(bytes: &[u8; 64], now: &[u8; 64], dirty: &[bool; 64]) -> bool {
    for at in 0..64usize {
        if !dirty[at] && bytes[at] != now[at] {
            return false;
        }
    }
    true
}

// One call, as the number at random says, and whether the file then reads as the arrays say.
fn step(disk: &mut MemDisk, bytes: &mut [u8; 64], dirty: &mut [bool; 64], random: u32) -> bool {
    let at = (random % 64) as usize;
    let byte = (random / 64 % 256) as u8;
    let mut now = [0; 64];
    let call = random / 16_384 % 8;
    if call == 0 {
        disk.cut_power();
        let fine = reads(disk, &mut now) && agree(bytes, &now, dirty);
        *bytes = now;
        *dirty = [false; 64];
        return fine;
    }
    if call == 1 {
        if disk.sync(3).is_ok() {
            *dirty = [false; 64];
        }
        return reads(disk, &mut now) && now == *bytes;
    }
    let before = bytes[at];
    let done = disk.write(3, at as u64, &[byte]).is_ok();
    let fine = reads(disk, &mut now) && (now[at] == byte || !done && now[at] == before);
    bytes[at] = now[at];
    dirty[at] = true;
    fine && now == *bytes
}

// Some thousand calls.
fn play(disk: &mut MemDisk, seed: u32) -> bool {
    let mut bytes = [0; 64];
    let mut dirty = [false; 64];
    if disk.write(3, 0, &bytes).is_err() || disk.sync(3).is_err() {
        return false;
    }
    let mut random = seed;
    for _ in 0..4_000u32 {
        random = random.wrapping_mul(1_664_525).wrapping_add(1_013_904_223);
        if !step(disk, &mut bytes, &mut dirty, random / 256) {
            return false;
        }
    }
    true
}

#[test]
fn a_disk_agrees_with_plain_arrays(rt: HostRuntime) -> Result<(), Wrong> {
    let fails = Vec::from_array(rt.alloc(), [3, 8, 40, 42, 77, 200, 1001, 1003, 2222])?;
    let picks = [99; 8192].to_vec(rt.alloc())?;
    let mut disk = MemDisk::new(rt.alloc(), fails, picks)?;
    assert!(rt; play(&mut disk, 1));
    Ok(())
}
