//! Disks that are laid out by hand: what a life of a cluster left on them.
use crate::restarts::trouble::Trouble;
use host_io::{Disk, FILES, MemDisk};
use sig_core::{ControlSlot, Shape, SystemSlot};
use std::alloc::Global;
use sysfile_core::{CONTROL_FILE, SYSTEM_FILE, control_bytes, system_bytes};

/// Two nodes with the same rows.
pub const PAIR: Shape = Shape {
    nodes: 2,
    replicas: 2,
    fragments: 4,
};

/// Bytes that stand in a file.
#[derive(Drop)]
pub struct Piece {
    pub file: u8,
    pub at: u64,
    pub bytes: Vec<u8>,
}

/// Which calls on a disk fail, counted from 0 behind those of its laying out.
#[derive(Clone, Copy)]
pub enum Trip {
    Never,
    /// All from this one on, until power is cut.
    From(u64),
    /// This one alone.
    At(u64),
}

/// What stands on a disk, all of it synced.
#[derive(Drop)]
pub struct Layout {
    alloc: Global,
    pub pieces: Vec<Piece>,
}

impl Layout {
    /// A disk that was never written.
    pub fn new(alloc: Global) -> Layout {
        Layout {
            alloc,
            pieces: Vec::new(alloc),
        }
    }

    /// Bytes stand at a place of a file, too.
    ///
    /// # Errors
    /// Want of memory, as of all that follow.
    pub fn put(&mut self, file: u8, at: u64, bytes: &[u8]) -> Result<(), Trouble> {
        let bytes = bytes.to_vec(self.alloc)?;
        self.pieces.push(Piece { file, at, bytes })?;
        Ok(())
    }

    /// A system slot stands at a place, too.
    pub fn system(&mut self, at: u64, slot: &SystemSlot) -> Result<(), Trouble> {
        self.put(SYSTEM_FILE, at, &system_bytes(slot))
    }

    /// A control slot stands at a place, too.
    pub fn control(&mut self, at: u64, slot: &ControlSlot) -> Result<(), Trouble> {
        self.put(CONTROL_FILE, at, &control_bytes(slot))
    }

    /// A disk with all of it, no call on which is to fail.
    pub fn disk(&self) -> Result<MemDisk, Trouble> {
        self.tripping(Trip::Never, &[])
    }

    /// A disk with all of it. `picks` say what a crash leaves.
    ///
    /// # Errors
    /// `Layout` where a call of the laying out fails; want of memory.
    pub fn tripping(&self, trip: Trip, picks: &[u8]) -> Result<MemDisk, Trouble> {
        let mut disk = self.blank(trip, picks)?;
        match self.lay(&mut disk) {
            Ok(()) => Ok(disk),
            Err(trouble) => Err(trouble),
        }
    }

    fn blank(&self, trip: Trip, picks: &[u8]) -> Result<MemDisk, Trouble> {
        let picks = picks.to_vec(self.alloc)?;
        match trip {
            Trip::Never => Ok(MemDisk::new(self.alloc, Vec::new(self.alloc), picks)?),
            Trip::From(call) => Ok(MemDisk::fused(self.alloc, self.behind(call), picks)?),
            Trip::At(call) => {
                let fails = Vec::from_array(self.alloc, [self.behind(call)])?;
                Ok(MemDisk::new(self.alloc, fails, picks)?)
            }
        }
    }

    // The number of a call behind the laying out: each piece is a write, and each file synced once.
    fn behind(&self, call: u64) -> u64 {
        call.saturating_add(FILES as u64)
            .saturating_add(self.pieces.len() as u64)
    }

    fn lay(&self, disk: &mut MemDisk) -> Result<(), Trouble> {
        for piece in &self.pieces {
            if disk.write(piece.file, piece.at, &piece.bytes).is_err() {
                return Err(Trouble::Layout);
            }
        }
        sync_all(disk)
    }
}

fn sync_all(disk: &mut MemDisk) -> Result<(), Trouble> {
    for file in 0..FILES {
        if disk.sync(file).is_err() {
            return Err(Trouble::Layout);
        }
    }
    Ok(())
}

/// Two disks as they are laid out, no call on which is to fail.
pub fn disks_of(one: &Layout, other: &Layout) -> Result<[MemDisk; 2], Trouble> {
    Ok([one.disk()?, other.disk()?])
}

/// A system slot of the pair, which lists these nodes.
pub fn system_of(generation: u64, epoch: u64, mask: u8) -> SystemSlot {
    SystemSlot {
        shape: PAIR,
        mask,
        generation,
        epoch,
    }
}

/// A control slot of parity 0 that names a checkpoint of so many bytes, and no redo.
pub fn slot_without_redo(
    ckpt_file: u8,
    generation: u64,
    serial: u64,
    saved: u64,
    ckpt_size: u64,
) -> ControlSlot {
    ControlSlot {
        ckpt_file,
        parity: 0,
        generation,
        serial,
        saved,
        redo_start: 0,
        redo_end: 0,
        ckpt_size,
    }
}
