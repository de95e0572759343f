//! Disks whose system slots are all lost, though rows were saved on them.
ghost use Rattle.std.specs.Prelude.{◌≡◌, ◌≤◌, ◌||◌, false, List, Some, IfErr, IfOk, length, map};
ghost use Rattle.host_io.specs.Call.{Call};
ghost use Rattle.host_io.specs.Fault.{Rose};
ghost use Rattle.redo_log.specs.Stored.{files_of};
ghost use Rattle.sysfile_core.specs.declared.place.TheConstants.{CONTROL_FILE};
ghost use Rattle.sysfile_core.specs.Reading.{control_at};
ghost use Rattle.sys_restart.specs.Answers.{AreSteady, HasCauseAmong, HasCauseOf, ReadsAll};
ghost use Rattle.sys_restart.specs.Files.{disks_of};
ghost use Rattle.sys_restart.specs.Lost.{has_saved, none_lost, none_lost_on, was_saved};
ghost use Rattle.sys_restart.specs.Places.{usable};

use crate::lack::lacking;
use crate::places::usable;
use host_io::Disk;
use sig_core::{ControlSlot, RestartFault};
use sysfile_core::{SYSTEM_FILE, control_at};

/// Disks, none of which has a system slot, have lost none: rows were saved on none of them.
///
/// # Errors
/// `Damaged` at the first node whose control file has a slot of saved rows, at the first byte of its system
/// file; `DiskFault`.
pub(crate) fn none_lost<D: Disk>(disks: &mut [D]) -> Result<(), RestartFault>
    requires { length disks.old ≤ 8 }
    ensures read { (records : List (List Call)) → map D.told disks.old ≡ map Some records → ReadsAll (none_lost (disks_of records) 1 (length disks.old)) result }
    ensures unrecorded { map D.told disks.new ≡ map D.told disks.old }
    ensures cause { HasCauseAmong (map D.faults disks.old) (map D.faults disks.new) result }
    ensures steady { AreSteady (map D.faults disks.old) (map D.faults disks.new) }
{
    for index in 0..disks.len() {
        match none_lost_on(&mut disks[index], index as u8 + 1) {
            Ok(()) => {}
            Err(fault) => return Err(fault),
        }
    }
    Ok(())
}

// The same of a node's disk.
fn none_lost_on<D: Disk>(disk: &mut D, node: u8) -> Result<(), RestartFault>
    ensures read { (calls : List Call) → D.told disk.old ≡ Some calls → ReadsAll (none_lost_on node (files_of calls)) result }
    ensures unrecorded { D.told disk.new ≡ D.told disk.old }
    ensures cause { HasCauseOf node (D.faults disk.old) (D.faults disk.new) result }
    ensures steady { D.faults disk.old ≤ D.faults disk.new }
{
    match has_saved(disk) {
        Ok(true) => Err(lacking(disk, node, SYSTEM_FILE)),
        Ok(false) => Ok(()),
        Err(count) => Err(RestartFault::DiskFault { node, count }),
    }
}

// Whether rows were saved under one of the control slots of a disk.
fn has_saved<D: Disk>(disk: &mut D) -> Result<bool, u64>
    ensures read { (calls : List Call) → D.told disk.old ≡ Some calls → IfOk result (λ saved. saved ≡ has_saved (files_of calls CONTROL_FILE)) }
    ensures unrecorded { D.told disk.new ≡ D.told disk.old }
    ensures cause { IfErr result (λ count. Rose (D.faults disk.old) (D.faults disk.new) × (count ≡ D.faults disk.new)) }
    ensures steady { D.faults disk.old ≤ D.faults disk.new }
{
    match saved_at(disk, 0) {
        Ok(one) => saved_beside(disk, one),
        Err(count) => Err(count),
    }
}

// The same, where it is known of that at place 0.
fn saved_beside<D: Disk>(disk: &mut D, one: bool) -> Result<bool, u64>
    ensures read { (calls : List Call) → D.told disk.old ≡ Some calls → IfOk result (λ saved. saved ≡ (one || was_saved (usable (control_at 1 (files_of calls CONTROL_FILE))))) }
    ensures unrecorded { D.told disk.new ≡ D.told disk.old }
    ensures cause { IfErr result (λ count. Rose (D.faults disk.old) (D.faults disk.new) × (count ≡ D.faults disk.new)) }
    ensures steady { D.faults disk.old ≤ D.faults disk.new }
{
    match saved_at(disk, 1) {
        Ok(other) => Ok(one || other),
        Err(count) => Err(count),
    }
}

// Whether rows were saved under the control slot at a place.
fn saved_at<D: Disk>(disk: &mut D, which: u8) -> Result<bool, u64>
    requires { which ≤ 1 }
    ensures read { (calls : List Call) → D.told disk.old ≡ Some calls → IfOk result (λ saved. saved ≡ was_saved (usable (control_at which (files_of calls CONTROL_FILE)))) }
    ensures unrecorded { D.told disk.new ≡ D.told disk.old }
    ensures cause { IfErr result (λ count. Rose (D.faults disk.old) (D.faults disk.new) × (count ≡ D.faults disk.new)) }
    ensures steady { D.faults disk.old ≤ D.faults disk.new }
{
    match usable(control_at(disk, which)) {
        Ok(slot) => Ok(was_saved(slot)),
        Err(count) => Err(count),
    }
}

// Whether rows were saved under a control slot.
fn was_saved(slot: Option<ControlSlot>) -> bool
    ensures { result ≡ was_saved slot }
{
    match slot {
        Some(slot) => 0 < slot.saved,
        None => false,
    }
}
