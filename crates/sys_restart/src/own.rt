//! The rows that one node's disk has of itself.
ghost use Rattle.std.specs.Prelude.{◌≡◌, ◌≤◌, ◌==◌, ◌&&◌, ℕ, List, Ok, Some};
ghost use Rattle.host_io.specs.Call.{Call};
ghost use Rattle.redo_log.specs.Stored.{files_of};
ghost use Rattle.sysfile_core.specs.Found.{HasRedo};
ghost use Rattle.sys_restart.specs.Answers.{HasCause, Reads};
ghost use Rattle.sys_restart.specs.Groups.{is_listed};
ghost use Rattle.sys_restart.specs.Latest.{same_shape};
ghost use Rattle.sys_restart.specs.Own.{own_by, own_of, own_rows, own_under};

use crate::groups::is_listed;
use crate::latest::same_shape;
use crate::slot_rows::rows_of_slot;
use crate::table::to_table;
use host_io::Disk;
use row_map::RowMap;
use sig_core::{ControlSlot, NoMemory, Own, ReadFault, Shape, SystemSlot};
use std::alloc::Global;
use sysfile_core::{read_control, read_system};

/// The rows that a node's disk has, with their epoch. None exactly where no system slot is in use, the
/// one in use is of another shape or doesn't list the node, no control slot of its generation is in
/// use, or that one was saved at another epoch.
///
/// # Errors
/// `Damaged` exactly where what is read isn't in its grammar; `DiskFault` only where the disk's count
/// rose; `NoMemory`.
pub fn restore_own<D: Disk>(
    alloc: Global,
    disk: &mut D,
    shape: Shape,
    node: u8,
) -> Result<Option<Own>, ReadFault>
    requires first { 1 ≤ node }
    requires few { node ≤ 8 }
    ensures read { (calls : List Call) → D.told disk.old ≡ Some calls → Reads (own_of shape node (files_of calls)) result }
    ensures unrecorded { D.told disk.new ≡ D.told disk.old }
    ensures cause { HasCause (D.faults disk.old) (D.faults disk.new) result }
    ensures steady { D.faults disk.old ≤ D.faults disk.new }
{
    match read_system(disk) {
        Ok(Some(system)) => own_under(alloc, disk, &system, &shape, node),
        Ok(None) => Ok(None),
        Err(fault) => Err(fault),
    }
}

// The rows under a system slot.
fn own_under<D: Disk>(
    alloc: Global,
    disk: &mut D,
    system: &SystemSlot,
    shape: &Shape,
    node: u8,
) -> Result<Option<Own>, ReadFault>
    requires first { 1 ≤ node }
    requires few { node ≤ 8 }
    ensures read { (calls : List Call) → D.told disk.old ≡ Some calls → Reads (own_under shape.now node (files_of calls) (Ok (Some system.now))) result }
    ensures unrecorded { D.told disk.new ≡ D.told disk.old }
    ensures cause { HasCause (D.faults disk.old) (D.faults disk.new) result }
    ensures steady { D.faults disk.old ≤ D.faults disk.new }
{
    if !lists(system, shape, node) {
        return Ok(None);
    }
    match read_control(disk, system.generation) {
        Ok(Some(control)) => own_in(alloc, disk, system, &control),
        Ok(None) => Ok(None),
        Err(fault) => Err(fault),
    }
}

// Whether a system slot is of the shape and lists the node.
fn lists(system: &SystemSlot, shape: &Shape, node: u8) -> bool
    requires first { 1 ≤ node }
    requires few { node ≤ 8 }
    ensures { result ≡ (same_shape system.now.shape shape.now && is_listed system.now.mask node) }
{
    same_shape(&system.shape, shape) && is_listed(system.mask, node)
}

// The rows of the slots in use.
fn own_in<D: Disk>(
    alloc: Global,
    disk: &mut D,
    system: &SystemSlot,
    control: &ControlSlot,
) -> Result<Option<Own>, ReadFault>
    requires { HasRedo control.now }
    ensures read { (calls : List Call) → D.told disk.old ≡ Some calls → Reads (own_by system.now (files_of calls) (Ok (Some control.now))) result }
    ensures unrecorded { D.told disk.new ≡ D.told disk.old }
    ensures cause { HasCause (D.faults disk.old) (D.faults disk.new) result }
    ensures steady { D.faults disk.old ≤ D.faults disk.new }
{
    if !is_saved_at(control, system.epoch) {
        return Ok(None);
    }
    match rows_of_slot(alloc, disk, control, system.epoch) {
        Ok(rows) => own_with(alloc, system.epoch, &rows),
        Err(fault) => Err(fault),
    }
}

// These rows as those of an epoch.
fn own_with(alloc: Global, epoch: u64, rows: &RowMap) -> Result<Option<Own>, ReadFault>
    ensures read { Reads (own_rows epoch (Ok rows.now)) result }
    ensures cause { (before now : ℕ) → HasCause before now result }
{
    match to_table(alloc, rows) {
        Ok(rows) => Ok(Some(Own { epoch, rows })),
        Err(NoMemory) => Err(ReadFault::NoMemory),
    }
}

// Whether this epoch is the last that is saved.
fn is_saved_at(control: &ControlSlot, epoch: u64) -> bool
    ensures { result ≡ (control.now.saved == epoch) }
{
    control.saved == epoch
}
