//! Checkpoints of version 1, and of sizes at the limits.
use crate::restarts::layout::{Layout, disks_of, slot_without_redo, system_of};
use crate::restarts::long_rows::put_long_rows;
use crate::restarts::records::first_checkpoint;
use crate::restarts::restart::{expect, prepare_pair, wanted};
use crate::restarts::rows::{are_same, table_of};
use crate::restarts::trouble::Trouble;
use host_io::{Disk, MemDisk};
use lcp_store::put_row;
use row_map::RowMap;
use sig_core::{ControlSlot, Key, ReadFault, Value};
use std::alloc::Global;
use sys_restart::read_rows;
use sysfile_core::read_control;

const ROWS: [(u8, u8); 2] = [(b'a', b'1'), (b'b', b'2')];

/// The same rows in version 2, of epoch 2.
const NEXT: &[u8; 26] = b"\0\x02\x01a\0\0\0\0\0\0\0\x02\x011\x01b\0\0\0\0\0\0\0\x02\x012";

/// A checkpoint of version 1 is read, and the next one is of version 2, each row of the restart epoch.
pub fn a_first_version(alloc: Global) -> Result<(), Trouble> {
    let layout = first_layout(alloc)?;
    let mut disks = disks_of(&layout, &layout)?;
    prepare_behind(alloc, &mut disks)?;
    for disk in &mut disks {
        has_next(disk)?;
    }
    Ok(())
}

fn first_layout(alloc: Global) -> Result<Layout, Trouble> {
    let rows = first_checkpoint(alloc, &ROWS)?;
    let mut layout = Layout::new(alloc);
    match lay_first(&mut layout, &rows) {
        Ok(()) => Ok(layout),
        Err(trouble) => Err(trouble),
    }
}

fn lay_first(layout: &mut Layout, rows: &[u8]) -> Result<(), Trouble> {
    layout.put(3, 0, rows)?;
    let slot = ControlSlot {
        parity: 1,
        redo_start: 9,
        redo_end: 9,
        ..slot_without_redo(3, 7, 1, 2, rows.len() as u64)
    };
    layout.control(0, &slot)?;
    layout.system(0, &system_of(7, 2, 3))
}

fn prepare_behind(alloc: Global, disks: &mut [MemDisk; 2]) -> Result<(), Trouble> {
    let first = wanted(alloc, 7, 2, &ROWS)?;
    expect(alloc, disks, &first)?;
    prepare_pair(alloc, disks, &first)
}

// A disk has the next checkpoint, in the file and of the parity that weren't in use.
fn has_next(disk: &mut MemDisk) -> Result<(), Trouble> {
    let slot = read_control(disk, 8)?;
    let mut bytes = [0; 26];
    if slot != Some(slot_without_redo(2, 8, 1, 2, 26)) {
        return Err(Trouble::Other);
    }
    match disk.read(2, 0, &mut bytes) {
        Ok(26) if bytes == *NEXT => Ok(()),
        _ => Err(Trouble::Other),
    }
}

/// Keys and values of version 1 may be as long as those of version 2; a value may be empty.
pub fn the_longest_words(alloc: Global) -> Result<(), Trouble> {
    let mut rows = RowMap::new(alloc);
    put_longest(&mut rows)?;
    is_read_back(alloc, &rows)
}

fn put_longest(rows: &mut RowMap) -> Result<(), Trouble> {
    put_long_rows(rows)?;
    let value = Value::new(b"")?;
    Ok(rows.insert(Key::new(b"a")?, value.bytes())?)
}

// Rows that are written in version 1 are read as they are.
fn is_read_back(alloc: Global, rows: &RowMap) -> Result<(), Trouble> {
    let bytes = bytes_of(alloc, rows)?;
    let found = read_back(alloc, &bytes, bytes.len() as u64)?;
    is_same(alloc, &found, rows)
}

// The bytes of a checkpoint of version 1.
fn bytes_of(alloc: Global, rows: &RowMap) -> Result<Vec<u8>, Trouble> {
    let mut bytes = Vec::new(alloc);
    for (key, value) in &rows.to_rows(alloc)? {
        put_row(&mut bytes, key, value.bytes())?;
    }
    Ok(bytes)
}

// What is read of a file of these bytes as a checkpoint of a size.
fn read_back(alloc: Global, bytes: &[u8], size: u64) -> Result<RowMap, Trouble> {
    let mut layout = Layout::new(alloc);
    layout.put(3, 0, bytes)?;
    Ok(read_rows(alloc, &mut layout.disk()?, 3, size, 0)?)
}

fn is_same(alloc: Global, found: &RowMap, rows: &RowMap) -> Result<(), Trouble> {
    if are_same(alloc, found, rows)? {
        Ok(())
    } else {
        Err(Trouble::Other)
    }
}

/// A checkpoint of a size that its file hasn't, or within a row, is damaged behind the last byte.
pub fn sizes_at_the_limits(alloc: Global) -> Result<(), Trouble> {
    let bytes = first_checkpoint(alloc, &[(b'a', b'1')])?;
    is_row(alloc, &bytes)?;
    for size in [3, 5, u64::MAX] {
        is_cut(read_back(alloc, &bytes, size), size.min(4))?;
    }
    Ok(())
}

fn is_row(alloc: Global, bytes: &[u8]) -> Result<(), Trouble> {
    let found = read_back(alloc, bytes, 4)?;
    let row = table_of(alloc, &[(b'a', b'1')])?;
    is_same(alloc, &found, &row)
}

fn is_cut(read: Result<RowMap, Trouble>, at: u64) -> Result<(), Trouble> {
    let cut = ReadFault::Damaged {
        file: 3,
        at,
        byte: 0,
    };
    match read {
        Ok(_) => Err(Trouble::NotRefused),
        Err(Trouble::Read(fault)) if fault == cut => Ok(()),
        Err(trouble) => Err(trouble),
    }
}
