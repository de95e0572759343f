//! Two nodes that were stopped in their first life: epoch 5 is durable, and something of epoch 6 is
//! logged.
use crate::restarts::layout::{Layout, Trip, system_of};
use crate::restarts::long_rows::put_long_rows;
use crate::restarts::records::{Logged, checkpoint, redo};
use crate::restarts::restart::{one_group, prepare_pair, restore_pair};
use crate::restarts::rows::{have_rows, table_of};
use crate::restarts::trouble::Trouble;
use host_io::MemDisk;
use lcp_store::put_row2;
use row_map::RowMap;
use sig_core::ControlSlot;
use std::alloc::Global;
use sys_restart::Restored;

/// The rows that are restored, but for long ones.
pub const ROWS: [(u8, u8); 3] = [(b'a', b'9'), (b'c', b'3'), (b'd', b'4')];

/// What is logged of their life.
pub const LOG: [Logged; 6] = [
    Logged {
        key: b'd',
        value: Some(b'4'),
        epoch: Some(4),
    },
    Logged {
        key: b'a',
        value: Some(b'9'),
        epoch: Some(5),
    },
    Logged {
        key: b'c',
        value: Some(b'7'),
        epoch: None,
    },
    Logged {
        key: b'b',
        value: None,
        epoch: Some(5),
    },
    Logged {
        key: b'e',
        value: Some(b'5'),
        epoch: Some(6),
    },
    Logged {
        key: b'a',
        value: Some(b'8'),
        epoch: Some(6),
    },
];

/// The rows of their checkpoint, with their epochs.
pub const FIRST_ROWS: [(u8, u8, u64); 3] = [(b'a', b'1', 1), (b'b', b'2', 2), (b'c', b'3', 3)];

/// The disks of the two, and what a restart has to give of them.
#[derive(Drop)]
pub struct Pair {
    alloc: Global,
    pub layouts: [Layout; 2],
    wanted: Restored,
}

impl Pair {
    /// With `long` their checkpoint has long rows too, which take several pieces.
    pub fn new(alloc: Global, long: bool) -> Result<Pair, Trouble> {
        let wanted = rows_of(alloc, long)?;
        let layouts = [layout_of(alloc, 1, long)?, layout_of(alloc, 2, long)?];
        Ok(Pair {
            alloc,
            layouts,
            wanted,
        })
    }

    /// The disks, of which that of one node fails.
    pub fn tripping(&self, node: u8, trip: Trip, picks: &[u8]) -> Result<[MemDisk; 2], Trouble> {
        let [first, second] = &self.layouts;
        let (one, other) = match node {
            1 => (trip, Trip::Never),
            _ => (Trip::Never, trip),
        };
        Ok([first.tripping(one, picks)?, second.tripping(other, picks)?])
    }

    /// The disks, no call on which is to fail.
    pub fn disks(&self) -> Result<[MemDisk; 2], Trouble> {
        self.tripping(1, Trip::Never, &[])
    }

    /// Restores disks, which have to have the epoch and the rows of the pair, in one of these generations.
    pub fn restore(
        &self,
        disks: &mut [MemDisk; 2],
        least: u64,
        most: u64,
    ) -> Result<Restored, Trouble> {
        let found = restore_pair(self.alloc, disks)?;
        match self.check(&found, least, most) {
            Ok(()) => Ok(found),
            Err(trouble) => Err(trouble),
        }
    }

    /// What is restored is of one of these generations, and has the epoch and the rows of the pair.
    ///
    /// # Errors
    /// `Other` where it isn't.
    pub fn check(&self, found: &Restored, least: u64, most: u64) -> Result<(), Trouble> {
        let generation = found.generation;
        if generation < least || most < generation || found.epoch != self.wanted.epoch {
            return Err(Trouble::Other);
        }
        have_rows(
            self.alloc,
            found.groups.as_slice(),
            self.wanted.groups.as_slice(),
        )
    }

    /// Restores disks as they were laid out, and prepares the next life.
    pub fn begin(&self, disks: &mut [MemDisk; 2]) -> Result<(), Trouble> {
        self.prepare_next(disks, 1, 1)?;
        Ok(())
    }

    /// Restores, prepares, and restores what was prepared.
    pub fn go_on(&self, disks: &mut [MemDisk; 2], least: u64) -> Result<(), Trouble> {
        let next = self.prepare_next(disks, least, 2)?;
        self.restore(disks, next, next)?;
        Ok(())
    }

    // Restores and prepares, and answers which generation.
    fn prepare_next(
        &self,
        disks: &mut [MemDisk; 2],
        least: u64,
        most: u64,
    ) -> Result<u64, Trouble> {
        let found = self.restore(disks, least, most)?;
        match prepare_pair(self.alloc, disks, &found) {
            Ok(()) => Ok(found.generation.saturating_add(1)),
            Err(trouble) => Err(trouble),
        }
    }
}

// What a restart has to give.
fn rows_of(alloc: Global, long: bool) -> Result<Restored, Trouble> {
    let mut rows = table_of(alloc, &ROWS)?;
    if long {
        put_long_rows(&mut rows)?;
    }
    one_group(alloc, 1, 5, rows)
}

/// The disk of a node. Of node 1 the system slot of epoch 5 is in use, of node 2 that of epoch 4.
pub fn layout_of(alloc: Global, node: u8, long: bool) -> Result<Layout, Trouble> {
    let mut layout = Layout::new(alloc);
    match lay_files(alloc, &mut layout, node, long) {
        Ok(()) => Ok(layout),
        Err(trouble) => Err(trouble),
    }
}

fn lay_files(alloc: Global, layout: &mut Layout, node: u8, long: bool) -> Result<(), Trouble> {
    let size = lay_rows(alloc, layout, long)?;
    lay_redo(alloc, layout, size)?;
    layout.system(0, &system_of(1, 4, 3))?;
    if node == 1 {
        layout.system(4_096, &system_of(1, 5, 3))?;
    }
    Ok(())
}

// Lays out the checkpoint, and answers its size.
fn lay_rows(alloc: Global, layout: &mut Layout, long: bool) -> Result<u64, Trouble> {
    let mut bytes = checkpoint(alloc, &FIRST_ROWS)?;
    if long {
        append_long_rows(alloc, &mut bytes)?;
    }
    layout.put(2, 0, &bytes)?;
    Ok(bytes.len() as u64)
}

fn append_long_rows(alloc: Global, bytes: &mut Vec<u8>) -> Result<(), Trouble> {
    let mut rows = RowMap::new(alloc);
    put_long_rows(&mut rows)?;
    for (key, value) in &rows.to_rows(alloc)? {
        put_row2(bytes, key, 1, value.bytes())?;
    }
    Ok(())
}

// Lays out the redo and the control slots: one is in use, the other was behind the first transaction.
fn lay_redo(alloc: Global, layout: &mut Layout, size: u64) -> Result<(), Trouble> {
    let log = redo(alloc, &LOG)?;
    let first = redo(alloc, &[LOG[0]])?;
    layout.put(4, 0, &log)?;
    layout.control(0, &slot_of(3, 5, log.len() as u64, size))?;
    layout.control(4_096, &slot_of(2, 4, first.len() as u64, size))
}

/// A slot of the first life that names the checkpoint, and the redo up to a position.
fn slot_of(serial: u64, saved: u64, redo_end: u64, ckpt_size: u64) -> ControlSlot {
    ControlSlot {
        ckpt_file: 2,
        parity: 0,
        generation: 1,
        serial,
        saved,
        redo_start: 0,
        redo_end,
        ckpt_size,
    }
}
