//! A folder as a disk, over files that are watched: each write takes one byte alone, and syncs are counted.
use crate::wrong::Wrong;
use host_io::Disk;
use host_real::FolderDisk;
use std::alloc::Allocator;
use std::cell::Cell;
use std::fs::{Metadata, OpenFile, OpenOptions};
use std::io::{Read, Seek, SeekFrom, Write};
use std::rt::Files;
use std::{fs, io};

const FOLDER: &str = "watched_disk_test";

/// The files of a runtime, watched.
#[derive(Drop)]
struct Watched<'a, R> {
    rt: &'a R,
    syncs: &'a Cell<u64>,
}

/// One of them.
#[derive(Drop)]
struct WatchedFile<'a, F> {
    file: F,
    syncs: &'a Cell<u64>,
}

impl<'a, F: Read> Read for WatchedFile<'a, F> {
    fn read(&mut self, buf: &mut [u8]) -> io::Result<usize> {
        self.file.read(buf)
    }
}

impl<'a, F: Write> Write for WatchedFile<'a, F> {
    fn write(&mut self, buf: &[u8]) -> io::Result<usize> {
        let count = buf.len().min(1);
        self.file.write(&buf[..count])
    }

    fn flush(&mut self) -> io::Result<()> {
        self.file.flush()
    }
}

impl<'a, F: Seek> Seek for WatchedFile<'a, F> {
    fn seek(&mut self, to: SeekFrom) -> io::Result<u64> {
        self.file.seek(to)
    }
}

impl<'a, F: OpenFile> OpenFile for WatchedFile<'a, F> {
    fn metadata(&self) -> io::Result<Metadata> {
        self.file.metadata()
    }

    fn set_len(&self, size: u64) -> io::Result<()> {
        self.file.set_len(size)
    }

    fn sync_all(&self) -> io::Result<()> {
        self.syncs.set(self.syncs.get().saturating_add(1));
        self.file.sync_all()
    }

    fn sync_data(&self) -> io::Result<()> {
        self.file.sync_data()
    }
}

impl<'a, R: Files> Files for Watched<'a, R> {
    type File = WatchedFile<'a, R::File>;

    type Dir = R::Dir;

    fn open_file(&self, how: &OpenOptions, path: &str) -> io::Result<WatchedFile<'a, R::File>> {
        let file = self.rt.open_file(how, path)?;
        Ok(WatchedFile {
            file,
            syncs: self.syncs,
        })
    }

    fn open_dir(&self, path: &str) -> io::Result<R::Dir> {
        self.rt.open_dir(path)
    }

    fn metadata(&self, path: &str) -> io::Result<Metadata> {
        self.rt.metadata(path)
    }

    fn symlink_metadata(&self, path: &str) -> io::Result<Metadata> {
        self.rt.symlink_metadata(path)
    }

    fn copy(&self, from: &str, to: &str) -> io::Result<u64> {
        self.rt.copy(from, to)
    }

    fn rename(&self, from: &str, to: &str) -> io::Result<()> {
        self.rt.rename(from, to)
    }

    fn remove_file(&self, path: &str) -> io::Result<()> {
        self.rt.remove_file(path)
    }

    fn create_dir(&self, path: &str) -> io::Result<()> {
        self.rt.create_dir(path)
    }

    fn remove_dir(&self, path: &str) -> io::Result<()> {
        self.rt.remove_dir(path)
    }

    fn remove_dir_all<B: Allocator>(&self, alloc: B, path: &str) -> io::Result<()> {
        self.rt.remove_dir_all(alloc, path)
    }
}

// Writes to a file of the disk and syncs it, and says how many syncs that were, if it went well.
fn syncs_of<D: Disk>(disk: &mut D, file: u8, syncs: &Cell<u64>) -> Option<u64> {
    syncs.set(0);
    match (disk.write(file, 2, b"abc"), disk.sync(file)) {
        (Ok(()), Ok(())) => Some(syncs.get()),
        _ => None,
    }
}

fn clear(rt: &HostRuntime) -> Result<(), Wrong> {
    if fs::exists(rt, FOLDER)? {
        fs::remove_dir_all(rt, FOLDER)?;
    }
    Ok(())
}

type Folder<'a> = FolderDisk<Watched<'a, HostRuntime>>;

fn folder_of<'a>(rt: &'a HostRuntime, syncs: &'a Cell<u64>) -> Result<Folder<'a>, Wrong> {
    Ok(FolderDisk::new(rt.alloc(), Watched { rt, syncs }, FOLDER)?)
}

// The file and the folder are new, then neither, then a file alone; another disk knows of none.
#[test]
fn a_sync_is_one_of_names_too_where_they_are_new(rt: HostRuntime) -> Result<(), Wrong> {
    clear(&rt)?;
    let syncs = Cell::new(0);
    let mut disk = folder_of(&rt, &syncs)?;
    assert!(rt; syncs_of(&mut disk, 1, &syncs) == Some(3));
    assert!(rt; syncs_of(&mut disk, 1, &syncs) == Some(1));
    assert!(rt; syncs_of(&mut disk, 2, &syncs) == Some(2));
    fs::remove_file(&rt, "watched_disk_test/f01")?;
    assert!(rt; syncs_of(&mut disk, 1, &syncs) == Some(2));
    fs::remove_dir_all(&rt, FOLDER)?;
    assert!(rt; syncs_of(&mut disk, 1, &syncs) == Some(3));
    let mut again = folder_of(&rt, &syncs)?;
    assert!(rt; syncs_of(&mut again, 1, &syncs) == Some(3));
    clear(&rt)
}

// Whether a write of four bytes is read back.
fn writes_on<D: Disk>(disk: &mut D) -> bool {
    let mut buf = [7; 6];
    let written = disk.write(3, 1, b"abcd").is_ok();
    written && disk.read(3, 0, &mut buf) == Ok(5) && buf == *b"\0abcd\x07"
}

#[test]
fn a_short_write_goes_on(rt: HostRuntime) -> Result<(), Wrong> {
    clear(&rt)?;
    let syncs = Cell::new(0);
    let mut disk = folder_of(&rt, &syncs)?;
    assert!(rt; writes_on(&mut disk));
    clear(&rt)
}
