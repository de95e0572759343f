//! The system slot from which a cluster restarts.
ghost use Rattle.std.specs.Prelude.{◌≡◌, ◌≤◌, List, None, Ok, Some, length, map};
ghost use Rattle.host_io.specs.Call.{Call};
ghost use Rattle.redo_log.specs.Stored.{files_of};
ghost use Rattle.sysfile_core.specs.declared.place.TheConstants.{SYSTEM_FILE};
ghost use Rattle.sysfile_core.specs.Reading.{system_at};
ghost use Rattle.sys_restart.specs.Answers.{AreSteady, HasCauseAmong, HasCauseOf, ReadsAll};
ghost use Rattle.sys_restart.specs.Files.{disks_of};
ghost use Rattle.sys_restart.specs.Latest.{later, latest_from, latest_on, of_shape, same_shape};

use crate::on_node::of_node;
use host_io::Disk;
use sig_core::{ReadFault, RestartFault, Shape, SystemSlot};
use sysfile_core::{later_system, system_at};

/// The open system slot with the greatest generation and epoch on any disk; the first by node and place
/// where there are several.
///
/// # Errors
/// `OtherShape` where an open system slot is of another shape, and `Damaged` where one doesn't fit, the
/// first of them by node and place; `DiskFault`.
pub(crate) fn latest<D: Disk>(
    disks: &mut [D],
    shape: Shape,
) -> Result<Option<SystemSlot>, RestartFault>
    requires { length disks.old ≤ 8 }
    ensures read { (records : List (List Call)) → map D.told disks.old ≡ map Some records → ReadsAll (latest_from shape (disks_of records) 1 (length disks.old) (Ok None)) result }
    ensures unrecorded { map D.told disks.new ≡ map D.told disks.old }
    ensures cause { HasCauseAmong (map D.faults disks.old) (map D.faults disks.new) result }
    ensures steady { AreSteady (map D.faults disks.old) (map D.faults disks.new) }
{
    let mut found = None;
    for index in 0..disks.len() {
        match latest_on(&mut disks[index], index as u8 + 1, shape) {
            Ok(slot) => found = later_system(found, slot),
            Err(fault) => return Err(fault),
        }
    }
    Ok(found)
}

// The later of the two system slots of a node's disk.
fn latest_on<D: Disk>(
    disk: &mut D,
    node: u8,
    shape: Shape,
) -> Result<Option<SystemSlot>, RestartFault>
    ensures read { (calls : List Call) → D.told disk.old ≡ Some calls → ReadsAll (latest_on shape node (files_of calls)) result }
    ensures unrecorded { D.told disk.new ≡ D.told disk.old }
    ensures cause { HasCauseOf node (D.faults disk.old) (D.faults disk.new) result }
    ensures steady { D.faults disk.old ≤ D.faults disk.new }
{
    match shaped_at(disk, 0, node, shape) {
        Ok(one) => later_on(disk, one, node, shape),
        Err(fault) => Err(fault),
    }
}

// The later of one and the system slot at place 1 of a node's disk.
fn later_on<D: Disk>(
    disk: &mut D,
    one: Option<SystemSlot>,
    node: u8,
    shape: Shape,
) -> Result<Option<SystemSlot>, RestartFault>
    ensures read { (calls : List Call) → D.told disk.old ≡ Some calls → ReadsAll (later (Ok one) (of_shape shape node (system_at 1 (files_of calls SYSTEM_FILE)))) result }
    ensures unrecorded { D.told disk.new ≡ D.told disk.old }
    ensures cause { HasCauseOf node (D.faults disk.old) (D.faults disk.new) result }
    ensures steady { D.faults disk.old ≤ D.faults disk.new }
{
    match shaped_at(disk, 1, node, shape) {
        Ok(other) => Ok(later_system(one, other)),
        Err(fault) => Err(fault),
    }
}

// The system slot at a place of a node's disk, if it is open.
fn shaped_at<D: Disk>(
    disk: &mut D,
    which: u8,
    node: u8,
    shape: Shape,
) -> Result<Option<SystemSlot>, RestartFault>
    requires { which ≤ 1 }
    ensures read { (calls : List Call) → D.told disk.old ≡ Some calls → ReadsAll (of_shape shape node (system_at which (files_of calls SYSTEM_FILE))) result }
    ensures unrecorded { D.told disk.new ≡ D.told disk.old }
    ensures cause { HasCauseOf node (D.faults disk.old) (D.faults disk.new) result }
    ensures steady { D.faults disk.old ≤ D.faults disk.new }
{
    of_shape(system_at(disk, which), node, shape)
}

/// Whether two shapes are the same.
pub(crate) fn same_shape(one: &Shape, other: &Shape) -> bool
    ensures { result ≡ same_shape one.now other.now }
{
    one.nodes == other.nodes && one.replicas == other.replicas && one.fragments == other.fragments
}

// A system slot that was read, unless it is of another shape.
fn of_shape(
    read: Result<Option<SystemSlot>, ReadFault>,
    node: u8,
    shape: Shape,
) -> Result<Option<SystemSlot>, RestartFault>
    ensures { result ≡ of_shape shape node read }
{
    match read {
        Ok(Some(slot)) => {
            if same_shape(&slot.shape, &shape) {
                Ok(Some(slot))
            } else {
                Err(RestartFault::OtherShape {
                    found: slot.shape,
                    asked: shape,
                })
            }
        }
        Ok(None) => Ok(None),
        Err(fault) => Err(of_node(node, fault)),
    }
}
