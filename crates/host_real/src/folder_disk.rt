//! A folder of files as a disk. It tells no content.
ghost use Rattle.std.specs.Prelude.{◌≡◌, ◌≤◌, ℕ, List, Option, None, IfOk, length};
ghost use Rattle.host_io.specs.Call.{Call};
ghost use Rattle.host_io.specs.Fault.{Rose};

use host_io::{Disk, FILES, Failed, has_place};
use std::alloc::{AllocError, Global};
use std::fs::{OpenFile, OpenOptions};
use std::io::{ErrorKind, Read, Seek, SeekFrom, Write};
use std::rt::Files;
use std::{fs, io};

/// A file of the folder.
#[derive(Drop)]
struct NamedFile {
    path: String,
    /// Whether its name is known to outlast a loss of power.
    named: bool,
}

/// A disk whose file k is `fKK` in its folder, KK being the two digits of k. The folder and a file are made at the
/// first write; the folder that it lies in has to be there. It counts its calls that fail.
#[derive(Drop)]
pub struct FolderDisk<R> {
    rt: R,
    folder: String,
    /// The folder that it lies in.
    around: String,
    /// The files, by their numbers.
    files: Vec<NamedFile>,
    /// Whether the folder's own name is known to outlast a loss of power.
    named: bool,
    faults: u64,
}

impl<R: Files + Drop> FolderDisk<R> {
    /// The disk in this folder, which needn't be there yet.
    ///
    /// # Errors
    /// Want of memory.
    pub fn new(alloc: Global, rt: R, folder: &str) -> Result<FolderDisk<R>, AllocError> {
        let mut files = Vec::with_capacity(alloc, FILES as usize)?;
        for file in 0..FILES {
            files.push(NamedFile {
                path: format!(in alloc; "{folder}/f{file:02}")?,
                named: false,
            })?;
        }
        Ok(FolderDisk {
            rt,
            folder: folder.to_owned(alloc)?,
            around: format!(in alloc; "{folder}/..")?,
            files,
            named: false,
            faults: 0,
        })
    }

    /// The disk of a node: the folder `ndb` with its number behind that.
    ///
    /// # Errors
    /// Want of memory.
    pub fn of_node(alloc: Global, rt: R, node: u8) -> Result<FolderDisk<R>, AllocError> {
        let folder = format!(in alloc; "ndb{node}")?;
        FolderDisk::new(alloc, rt, folder.as_str())
    }

    // Counts a fault.
    fn fail(&mut self) -> Failed
        ensures counted { Rose self.old.faults self.new.faults }
        ensures steady { self.old.faults ≤ self.new.faults }
    {
        self.faults = self.faults.saturating_add(1);
        Failed
    }

    // Opens a file, if it is there. What has its name and is no file is a fault.
    fn open(&self, how: &OpenOptions, file: u8) -> io::Result<Option<R::File>> {
        let Some(named) = self.files.get(file as usize) else {
            return Err(io::Error::from(ErrorKind::InvalidInput));
        };
        match how.open(&self.rt, named.path.as_str()) {
            Ok(opened) if opened.metadata()?.is_dir() => Err(io::Error::from(
                ErrorKind::IsADirectory,
            )),
            Ok(opened) => Ok(Some(opened)),
            Err(fault) if fault.kind() == ErrorKind::NotFound => Ok(None),
            Err(fault) => Err(fault),
        }
    }

    // A file to be read. None where it was never written.
    fn open_to_read(&self, file: u8) -> io::Result<Option<R::File>> {
        let mut how = OpenOptions::new();
        self.open(how.read(true), file)
    }

    // A file to be written, which is made where it isn't there, as the folder is.
    fn open_to_write(&mut self, file: u8) -> io::Result<R::File>
        ensures { self.new.faults ≡ self.old.faults }
    {
        let mut how = OpenOptions::new();
        if let Some(opened) = self.open(how.write(true), file)? {
            return Ok(opened);
        }
        self.forget_name(file);
        let made = self.open(how.create(true), file)?;
        if let Some(opened) = made {
            return Ok(opened);
        }
        fs::create_dir(&self.rt, self.folder.as_str())?;
        self.named = false;
        match self.open(&how, file)? {
            Some(opened) => Ok(opened),
            None => Err(io::Error::from(ErrorKind::NotFound)),
        }
    }

    // The name of a file is to be made outlast a loss of power at its next sync.
    fn forget_name(&mut self, file: u8)
        ensures { self.new.faults ≡ self.old.faults }
    {
        if let Some(named) = self.files.get_mut(file as usize) {
            named.named = false;
        }
    }

    fn read_at(&self, file: u8, at: u64, buf: &mut [u8]) -> io::Result<usize>
        ensures { IfOk result (λ n. n ≤ length buf.old) }
    {
        let Some(mut opened) = self.open_to_read(file)? else {
            return Ok(0);
        };
        opened.seek(SeekFrom::Start(at))?;
        read_most(&mut opened, buf)
    }

    fn write_at(&mut self, file: u8, at: u64, bytes: &[u8]) -> io::Result<()>
        ensures { self.new.faults ≡ self.old.faults }
    {
        let mut opened = self.open_to_write(file)?;
        opened.seek(SeekFrom::Start(at))?;
        opened.write_all(bytes)
    }

    // Syncs a file, and then its name, unless that is known to be synced.
    fn sync_file(&mut self, file: u8) -> io::Result<()>
        ensures { self.new.faults ≡ self.old.faults }
    {
        let Some(opened) = self.open_to_read(file)? else {
            return Ok(());
        };
        opened.sync_all()?;
        self.sync_names(file)
    }

    // Syncs the folder, which has the file's name, and the one around it, which has the folder's.
    fn sync_names(&mut self, file: u8) -> io::Result<()>
        ensures { self.new.faults ≡ self.old.faults }
    {
        let Some(named) = self.files.get_mut(file as usize) else {
            return Err(io::Error::from(ErrorKind::InvalidInput));
        };
        if !named.named {
            fs::open(&self.rt, self.folder.as_str())?.sync_all()?;
            named.named = true;
        }
        if !self.named {
            fs::open(&self.rt, self.around.as_str())?.sync_all()?;
            self.named = true;
        }
        Ok(())
    }

    fn size_of(&self, file: u8) -> io::Result<u64> {
        match self.open_to_read(file)? {
            Some(opened) => Ok(opened.metadata()?.len()),
            None => Ok(0),
        }
    }
}

impl<R: Files + Drop> Disk for FolderDisk<R> {
    ghost faults = { λ d. d.faults };

    ghost told = { λ d. None };

    fn read(&mut self, file: u8, at: u64, buf: &mut [u8]) -> Result<usize, Failed> {
        if !has_place(file, at) {
            return Err(self.fail());
        }
        match self.read_at(file, at, buf) {
            Ok(count) => Ok(count),
            Err(_) => Err(self.fail()),
        }
    }

    fn write(&mut self, file: u8, at: u64, bytes: &[u8]) -> Result<(), Failed> {
        if !has_place(file, at.saturating_add(bytes.len() as u64)) {
            return Err(self.fail());
        }
        match self.write_at(file, at, bytes) {
            Ok(()) => Ok(()),
            Err(_) => Err(self.fail()),
        }
    }

    fn sync(&mut self, file: u8) -> Result<(), Failed> {
        if !has_place(file, 0) {
            return Err(self.fail());
        }
        match self.sync_file(file) {
            Ok(()) => Ok(()),
            Err(_) => Err(self.fail()),
        }
    }

    fn size(&mut self, file: u8) -> Result<u64, Failed> {
        if !has_place(file, 0) {
            return Err(self.fail());
        }
        match self.size_of(file) {
            Ok(size) => Ok(size),
            Err(_) => Err(self.fail()),
        }
    }

    fn faults(&self) -> u64 {
        self.faults
    }

    /// Does nothing: what the system keeps outlasts a crash of the cluster.
    fn cut_power(&mut self) {}
}

// Reads until the buffer is full or the file ends, and says how many bytes that were.
fn read_most<F: Read>(file: &mut F, buf: &mut [u8]) -> io::Result<usize>
    ensures { IfOk result (λ n. n ≤ length buf.old) }
{
    let mut count = 0;
    for _ in 0..u64::MAX {
        if count == buf.len() {
            break;
        }
        match file.read(&mut buf[count..]) {
            Ok(0) => break,
            Ok(more) => count += more,
            Err(fault) if fault.kind() == ErrorKind::Interrupted => {}
            Err(fault) => return Err(fault),
        }
    }
    Ok(count)
}
