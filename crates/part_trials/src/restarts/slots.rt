//! Which slots count, and which disks are read.
use crate::restarts::layout::{Layout, disks_of, slot_without_redo, system_of};
use crate::restarts::records::checkpoint;
use crate::restarts::restart::{expect, gives, prepare_pair, refuses, wanted};
use crate::restarts::trouble::Trouble;
use host_io::MemDisk;
use sig_core::RestartFault;
use std::alloc::Global;
use sysfile_core::{CONTROL_FILE, OPEN, SYSTEM_FILE};

/// What a disk has of a life of one row.
#[derive(Clone, Copy)]
struct Life {
    generation: u64,
    epoch: u64,
    /// The nodes that its system slot lists.
    mask: u8,
    serial: u64,
    /// The place of its two slots.
    at: u64,
    /// That of its checkpoint.
    file: u8,
    row: (u8, u8),
}

impl Life {
    fn lay(&self, alloc: Global, layout: &mut Layout) -> Result<(), Trouble> {
        self.lay_rows(alloc, layout)?;
        layout.system(self.at, &system_of(self.generation, self.epoch, self.mask))
    }

    // All of it but its system slot.
    fn lay_rows(&self, alloc: Global, layout: &mut Layout) -> Result<(), Trouble> {
        let (key, value) = self.row;
        let bytes = checkpoint(alloc, &[(key, value, self.epoch)])?;
        let size = bytes.len() as u64;
        layout.put(self.file, 0, &bytes)?;
        let slot = slot_without_redo(self.file, self.generation, self.serial, self.epoch, size);
        layout.control(self.at, &slot)
    }
}

const FIRST: Life = Life {
    generation: 3,
    epoch: 9,
    mask: 3,
    serial: 1,
    at: 0,
    file: 2,
    row: (b'a', b'1'),
};

const SECOND: Life = Life {
    generation: 4,
    epoch: 1,
    mask: 2,
    serial: 1,
    at: 4_096,
    file: 3,
    row: (b'z', b'2'),
};

fn layout_with(alloc: Global, lives: &[Life]) -> Result<Layout, Trouble> {
    let mut layout = Layout::new(alloc);
    for life in lives {
        life.lay(alloc, &mut layout)?;
    }
    Ok(layout)
}

/// Of two system slots and of two control slots the later one counts, at whichever place it stands.
pub fn the_later_slots(alloc: Global, earlier: u64, later: u64) -> Result<(), Trouble> {
    let first = Life {
        at: earlier,
        ..FIRST
    };
    let second = Life {
        generation: 3,
        epoch: 10,
        mask: 3,
        serial: 2,
        at: later,
        ..SECOND
    };
    let layout = layout_with(alloc, &[first, second])?;
    gives(alloc, &layout, &layout, (3, 10), &[SECOND.row])
}

/// All nodes of a group that count have the same rows, or the second is named.
pub fn other_rows(alloc: Global) -> Result<(), Trouble> {
    let one = layout_with(alloc, &[FIRST])?;
    let changed = Life {
        row: (b'a', b'2'),
        ..FIRST
    };
    let other = layout_with(alloc, &[changed])?;
    let fault = RestartFault::Damaged {
        node: 2,
        file: CONTROL_FILE,
        at: 0,
        byte: OPEN,
    };
    refuses(alloc, &one, &other, fault)
}

// The life of the first, with another row and the next epoch.
const LATER: Life = Life {
    generation: 3,
    epoch: 10,
    mask: 3,
    serial: 2,
    ..SECOND
};

// A disk that lost something of the later life is named, unless the next one has it.
fn lacks(alloc: Global, lost: &Layout, fault: RestartFault) -> Result<(), Trouble> {
    let whole = layout_with(alloc, &[FIRST, LATER])?;
    gives(alloc, lost, &whole, (3, 10), &[SECOND.row])?;
    refuses(alloc, lost, lost, fault)
}

/// A node whose control file lost the later of its slots has no rows of the epoch: the next one has them, or the group
/// has none.
pub fn a_lost_slot(alloc: Global) -> Result<(), Trouble> {
    let mut lost = layout_with(alloc, &[FIRST])?;
    lost.system(4_096, &system_of(3, 10, 3))?;
    let fault = RestartFault::Damaged {
        node: 1,
        file: CONTROL_FILE,
        at: 0,
        byte: OPEN,
    };
    lacks(alloc, &lost, fault)
}

/// A node whose system file lost the later of its slots has a checkpoint with a row of a later epoch than the other slot
/// says: that row is named, unless the next node has the later slot.
pub fn a_lost_system_slot(alloc: Global) -> Result<(), Trouble> {
    let mut lost = layout_with(alloc, &[FIRST])?;
    LATER.lay_rows(alloc, &mut lost)?;
    let fault = RestartFault::Damaged {
        node: 1,
        file: 3,
        at: 4,
        byte: 0,
    };
    lacks(alloc, &lost, fault)
}

/// A node whose system file lost its later slot behind a local checkpoint, of which each row is older, is named too: its
/// control slots tell that the later epoch was durable, so a row that was deleted before isn't given back as deleted.
pub fn a_slot_lost_behind_a_checkpoint(alloc: Global) -> Result<(), Trouble> {
    a_slot_lost_behind(alloc, 10)?;
    a_slot_lost_behind(alloc, 11)
}

// The same, where the later of the control slots was saved at this epoch.
fn a_slot_lost_behind(alloc: Global, later: u64) -> Result<(), Trouble> {
    let lost = saved_twice(alloc, later)?;
    next_has(alloc, &lost, later)?;
    let fault = RestartFault::Damaged {
        node: 1,
        file: SYSTEM_FILE,
        at: 0,
        byte: OPEN,
    };
    refuses(alloc, &lost, &lost, fault)
}

// The rows are given where the next disk has the later slot.
fn next_has(alloc: Global, lost: &Layout, later: u64) -> Result<(), Trouble> {
    let mut whole = saved_twice(alloc, later)?;
    whole.system(4_096, &system_of(3, 10, 3))?;
    gives(alloc, lost, &whole, (3, 10), &[(b'a', b'1')])
}

// What a disk has whose rows were saved at epoch 10 and then at a later one, or of which a checkpoint was named at 10
// too, with the system slot of epoch 9 alone.
fn saved_twice(alloc: Global, later: u64) -> Result<Layout, Trouble> {
    let bytes = checkpoint(alloc, &[(b'a', b'1', 9)])?;
    let mut layout = Layout::new(alloc);
    match lay_twice(&mut layout, &bytes, later) {
        Ok(()) => Ok(layout),
        Err(trouble) => Err(trouble),
    }
}

fn lay_twice(layout: &mut Layout, bytes: &[u8], later: u64) -> Result<(), Trouble> {
    let size = bytes.len() as u64;
    layout.system(0, &system_of(3, 9, 3))?;
    layout.put(2, 0, bytes)?;
    layout.put(3, 0, bytes)?;
    layout.control(0, &slot_without_redo(2, 3, 2, 10, size))?;
    layout.control(4_096, &slot_without_redo(3, 3, 3, later, size))
}

/// A greater generation counts before a greater epoch, and lists who has it.
pub fn disks_that_disagree(alloc: Global) -> Result<(), Trouble> {
    let first = layout_with(alloc, &[FIRST])?;
    let second = layout_with(alloc, &[SECOND])?;
    gives(alloc, &first, &second, (4, 1), &[SECOND.row])
}

/// What a node has that isn't listed isn't read, and is no harm.
pub fn an_unlisted_node(alloc: Global) -> Result<(), Trouble> {
    let first = layout_with(alloc, &[Life { mask: 1, ..FIRST }])?;
    let second = damaged_layout(alloc)?;
    outlasts(alloc, &mut disks_of(&first, &second)?)
}

fn damaged_layout(alloc: Global) -> Result<Layout, Trouble> {
    let mut layout = Layout::new(alloc);
    layout.put(1, 0, &[0x4e; 56])?;
    layout.put(2, 0, &[0xff; 100])?;
    Ok(layout)
}

// A restart gives the first life, and then the one that is prepared behind it.
fn outlasts(alloc: Global, disks: &mut [MemDisk; 2]) -> Result<(), Trouble> {
    prepare_behind(alloc, disks)?;
    let next = wanted(alloc, FIRST.generation + 1, FIRST.epoch, &[FIRST.row])?;
    expect(alloc, disks, &next)
}

// A restart gives the first life, and the next one is prepared.
fn prepare_behind(alloc: Global, disks: &mut [MemDisk; 2]) -> Result<(), Trouble> {
    let first = wanted(alloc, FIRST.generation, FIRST.epoch, &[FIRST.row])?;
    expect(alloc, disks, &first)?;
    prepare_pair(alloc, disks, &first)
}

/// A group without a control slot is damaged at its first node that is listed.
pub fn a_group_without_a_slot(alloc: Global) -> Result<(), Trouble> {
    let mut layout = Layout::new(alloc);
    layout.system(4_096, &system_of(3, 4, 2))?;
    layout.put(1, 0, &[7])?;
    let fault = RestartFault::Damaged {
        node: 2,
        file: 1,
        at: 0,
        byte: 7,
    };
    refuses(alloc, &layout, &layout, fault)
}
