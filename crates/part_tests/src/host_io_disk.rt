//! Calls of disks by hand, and what each is to answer.
use crate::wrong::Wrong;
use host_io::{Disk, Failed, MemDisk};

// A call on a file, and what it is to answer: what stands there, how many, or whether it is done.
// Nothing where it is to fail.
#[derive(Clone, Copy)]
pub(crate) enum Call {
    // At a place.
    Write(u8, u64, &'static [u8], bool),
    // Four bytes at most, from a place on.
    Read(u8, u64, Option<&'static [u8]>),
    Sync(u8, bool),
    Size(u8, Option<u64>),
    CutPower,
    Faults(u64),
}

fn reads<D: Disk>(disk: &mut D, file: u8, at: u64, bytes: Option<&[u8]>) -> bool {
    let mut buf = [7; 4];
    match (disk.read(file, at, &mut buf), bytes) {
        (Ok(count), Some(bytes)) => count <= buf.len() && &buf[..count] == bytes,
        (Err(Failed), None) => true,
        _ => false,
    }
}

fn cuts_power<D: Disk>(disk: &mut D) -> bool {
    disk.cut_power();
    true
}

fn fits<D: Disk>(disk: &mut D, call: Call) -> bool {
    match call {
        Call::Write(file, at, bytes, done) => disk.write(file, at, bytes).is_ok() == done,
        Call::Read(file, at, bytes) => reads(disk, file, at, bytes),
        Call::Sync(file, done) => disk.sync(file).is_ok() == done,
        Call::Size(file, size) => disk.size(file).ok() == size,
        Call::CutPower => cuts_power(disk),
        Call::Faults(count) => disk.faults() == count,
    }
}

// The first call that isn't answered so.
pub(crate) fn first_wrong<D: Disk>(disk: &mut D, calls: &[Call]) -> Option<usize> {
    for (at, call) in calls.iter().enumerate() {
        if !fits(disk, *call) {
            return Some(at);
        }
    }
    None
}

#[test]
fn a_disk_keeps_what_is_written(rt: HostRuntime) -> Result<(), Wrong> {
    let mut disk = MemDisk::new(rt.alloc(), vec![in rt.alloc(); 5]?, Vec::new(rt.alloc()))?;
    let calls = [
        Call::Size(1, Some(0)),
        Call::Write(1, 2, b"abc", true),
        Call::Sync(1, true),
        Call::Read(1, 1, Some(b"\0abc")),
        Call::Read(1, 4, Some(b"c")),
        Call::Sync(1, false),
        Call::Faults(1),
    ];
    assert_eq!(rt; first_wrong(&mut disk, &calls), None);
    assert_eq!(rt; disk.calls(), 6);
    Ok(())
}

#[test]
fn places_that_no_disk_has_are_refused(rt: HostRuntime) -> Result<(), Wrong> {
    let mut disk = MemDisk::new(rt.alloc(), Vec::new(rt.alloc()), Vec::new(rt.alloc()))?;
    let calls = [
        Call::Write(16, 0, b"a", false),
        Call::Write(0, 1 << 32, b"a", false),
        Call::Write(0, u64::MAX, b"a", false),
        Call::Write(0, 1 << 32, b"", true),
        Call::Read(0, 1 << 32, Some(b"")),
        Call::Read(0, (1 << 32) + 1, None),
        Call::Sync(16, false),
        Call::Size(16, None),
        Call::Size(0, Some(0)),
        Call::Faults(6),
    ];
    assert_eq!(rt; first_wrong(&mut disk, &calls), None);
    Ok(())
}

// What a torn write of four bytes behind two that are synced leaves, as read, and after two cuts.
fn torn(rt: &HostRuntime, picks: &[u8], read: &[u8], left: &[u8]) -> Result<bool, Wrong> {
    let fails = vec![in rt.alloc(); 2]?;
    let mut disk = MemDisk::new(rt.alloc(), fails, picks.to_vec(rt.alloc())?)?;
    Ok(tears(&mut disk) && holds(&mut disk, read) && keeps(&mut disk, left))
}

// Makes the write, and says whether it fails.
fn tears(disk: &mut MemDisk) -> bool {
    let begun = disk.write(0, 0, b"ab").is_ok() && disk.sync(0).is_ok();
    begun && disk.write(0, 2, b"cdef").is_err()
}

// Cuts power twice, and says whether file 0 then reads so.
fn keeps(disk: &mut MemDisk, bytes: &[u8]) -> bool {
    disk.cut_power();
    disk.cut_power();
    holds(disk, bytes)
}

// Whether file 0 reads so.
fn holds(disk: &mut MemDisk, bytes: &[u8]) -> bool {
    let mut buf = [0; 8];
    match disk.read(0, 0, &mut buf) {
        Ok(count) => count <= buf.len() && &buf[..count] == bytes,
        Err(Failed) => false,
    }
}

#[test]
fn a_torn_write_leaves_what_the_picks_say(rt: HostRuntime) -> Result<(), Wrong> {
    assert!(rt; torn(&rt, &[], b"ab", b"ab")?);
    assert!(rt; torn(&rt, &[255; 6], b"abcdef", b"ab\xff\xff\xff\xff")?);
    assert!(rt; torn(&rt, &[128, 255, 0, 255], b"abcd", b"ab\0\xff")?);
    assert!(rt; torn(&rt, &[128, 0, 7, 7], b"abcd", b"ab")?);
    Ok(())
}

#[test]
fn a_fuse_burns_until_power_is_cut(rt: HostRuntime) -> Result<(), Wrong> {
    let mut disk = MemDisk::fused(rt.alloc(), 1, Vec::new(rt.alloc()))?;
    let calls = [
        Call::Write(0, 0, b"a", true),
        Call::Sync(0, false),
        Call::Size(0, None),
        Call::CutPower,
        Call::Size(0, Some(0)),
    ];
    assert_eq!(rt; first_wrong(&mut disk, &calls), None);
    Ok(())
}

#[test]
fn a_boxed_disk_is_a_disk(rt: HostRuntime) -> Result<(), Wrong> {
    let disk = MemDisk::new(rt.alloc(), Vec::new(rt.alloc()), Vec::new(rt.alloc()))?;
    let mut disk: Box<dyn Disk + Send> = Box::new(rt.alloc(), disk)?;
    assert_eq!(rt; disk.write(15, 0, b"a"), Ok(()));
    assert_eq!(rt; disk.size(15), Ok(1));
    Ok(())
}
