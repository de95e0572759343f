//! A folder as a disk, and readers and writers as sources and sinks.
use crate::host_io_disk::{Call, first_wrong};
use crate::wrong::Wrong;
use host_io::{Sink, Source};
use host_real::{FolderDisk, StdSink, StdSource};
use std::fs;
use std::rt::Files;

// Takes away the folder that an earlier run may have left.
fn clear(rt: &HostRuntime, folder: &str) -> Result<(), Wrong> {
    if fs::exists(rt, folder)? {
        fs::remove_dir_all(rt, folder)?;
    }
    Ok(())
}

// The first call that a disk in this folder doesn't answer so.
fn first_wrong_in(rt: &HostRuntime, folder: &str, calls: &[Call]) -> Result<Option<usize>, Wrong> {
    let mut disk = FolderDisk::new(rt.alloc(), rt, folder)?;
    Ok(first_wrong(&mut disk, calls))
}

#[test]
fn a_folder_keeps_what_is_written(rt: HostRuntime) -> Result<(), Wrong> {
    let folder = "kept_disk_test";
    clear(&rt, folder)?;
    let calls = [
        Call::Size(1, Some(0)),
        Call::Read(1, 0, Some(b"")),
        Call::Sync(1, true),
        Call::Write(1, 2, b"abc", true),
        Call::Sync(1, true),
        Call::CutPower,
        Call::Size(1, Some(5)),
        Call::Read(1, 1, Some(b"\0abc")),
        Call::Write(16, 0, b"a", false),
        Call::Faults(1),
    ];
    assert_eq!(rt; first_wrong_in(&rt, folder, &calls)?, None);
    assert!(rt; fs::exists(&rt, "kept_disk_test/f01")?);
    let again = [
        Call::Read(1, 1, Some(b"\0abc")),
        Call::Write(1, 3, b"d", true),
        Call::Read(1, 1, Some(b"\0adc")),
        Call::Size(1, Some(5)),
        Call::Faults(0),
    ];
    assert_eq!(rt; first_wrong_in(&rt, folder, &again)?, None);
    clear(&rt, folder)
}

// Nothing stands in a folder that isn't there; in a file there can't be one.
#[test]
fn a_folder_that_cannot_be_made_is_a_fault(rt: HostRuntime) -> Result<(), Wrong> {
    let folder = "unmade_disk_test";
    clear(&rt, folder)?;
    let nowhere = [
        Call::Size(1, Some(0)),
        Call::Write(1, 0, b"a", false),
        Call::Sync(1, true),
        Call::Faults(1),
    ];
    assert_eq!(rt;
        first_wrong_in(&rt, "unmade_disk_test/disk", &nowhere)?,
        None
    );
    fs::create_dir(&rt, folder)?;
    fs::write(&rt, "unmade_disk_test/disk", "a file")?;
    let blocked = [
        Call::Write(1, 0, b"a", false),
        Call::Size(1, None),
        Call::Read(1, 0, None),
        Call::Sync(1, false),
        Call::Faults(4),
    ];
    assert_eq!(rt;
        first_wrong_in(&rt, "unmade_disk_test/disk", &blocked)?,
        None
    );
    clear(&rt, folder)
}

#[test]
fn a_file_that_is_a_folder_is_a_fault(rt: HostRuntime) -> Result<(), Wrong> {
    let folder = "nested_disk_test";
    clear(&rt, folder)?;
    fs::create_dir_all(&rt, "nested_disk_test/f01")?;
    let calls = [
        Call::Size(1, None),
        Call::Read(1, 0, None),
        Call::Write(1, 0, b"a", false),
        Call::Sync(1, false),
        Call::Faults(4),
        Call::Write(2, 0, b"a", true),
        Call::Sync(2, true),
        Call::Read(2, 0, Some(b"a")),
        Call::Faults(4),
    ];
    assert_eq!(rt; first_wrong_in(&rt, folder, &calls)?, None);
    clear(&rt, folder)
}

// The device has room for no byte.
#[test]
fn a_full_device_is_a_fault(rt: HostRuntime) -> Result<(), Wrong> {
    let folder = "full_disk_test";
    clear(&rt, folder)?;
    fs::create_dir(&rt, folder)?;
    rt.symlink("/dev/full", "full_disk_test/f01")?;
    let calls = [
        Call::Write(1, 0, b"a", false),
        Call::Faults(1),
        Call::Write(1, 0, b"a", false),
        Call::Faults(2),
    ];
    assert_eq!(rt; first_wrong_in(&rt, folder, &calls)?, None);
    clear(&rt, folder)
}

#[test]
fn a_reader_is_a_source_and_a_writer_a_sink(rt: HostRuntime) -> Result<(), Wrong> {
    let mut source = StdSource::new(b"ab".as_slice());
    let mut buf = [0; 4];
    assert_eq!(rt; source.read(&mut buf), Ok(2));
    assert_eq!(rt; source.read(&mut buf), Ok(0));
    assert_eq!(rt; source.faults(), 0);
    let mut sink = StdSink::new(Vec::new(rt.alloc()));
    assert_eq!(rt; sink.write(b"ab"), Ok(2));
    assert_eq!(rt; sink.faults(), 0);
    Ok(())
}
