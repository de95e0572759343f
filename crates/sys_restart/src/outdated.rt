//! System slots that aren't the last: one of a later epoch was lost.
ghost use Rattle.std.specs.Prelude.{◌≡◌, ◌≤◌, List, Some, IfErr, IfOk};
ghost use Rattle.host_io.specs.Call.{Call};
ghost use Rattle.host_io.specs.Fault.{Rose};
ghost use Rattle.redo_log.specs.Stored.{files_of};
ghost use Rattle.sysfile_core.specs.declared.place.TheConstants.{CONTROL_FILE};
ghost use Rattle.sysfile_core.specs.Reading.{control_at, of_generation};
ghost use Rattle.sys_restart.specs.Outdated.{are_ahead, is_outdated};
ghost use Rattle.sys_restart.specs.Places.{usable};

use crate::places::usable_control;
use host_io::Disk;
use sig_core::{ControlSlot, SystemSlot};

/// Whether the control slots of a disk tell that a later epoch than that of this system slot, which is the latest,
/// was durable.
///
/// # Errors
/// A call on the disk failed; its count.
pub(crate) fn is_outdated<D: Disk>(disk: &mut D, system: &SystemSlot) -> Result<bool, u64>
    ensures read { (calls : List Call) → D.told disk.old ≡ Some calls → IfOk result (λ outdated. outdated ≡ is_outdated system.now.generation system.now.epoch (files_of calls CONTROL_FILE)) }
    ensures unrecorded { D.told disk.new ≡ D.told disk.old }
    ensures cause { IfErr result (λ count. Rose (D.faults disk.old) (D.faults disk.new) × (count ≡ D.faults disk.new)) }
    ensures steady { D.faults disk.old ≤ D.faults disk.new }
{
    match usable_control(disk, system.generation, 0) {
        Ok(one) => ahead_beside(disk, system, one),
        Err(count) => Err(count),
    }
}

// The same, of which the slot of the generation at place 0 is this one.
fn ahead_beside<D: Disk>(
    disk: &mut D,
    system: &SystemSlot,
    one: Option<ControlSlot>,
) -> Result<bool, u64>
    ensures read { (calls : List Call) → D.told disk.old ≡ Some calls → IfOk result (λ ahead. ahead ≡ are_ahead system.now.epoch one (of_generation system.now.generation (usable (control_at 1 (files_of calls CONTROL_FILE))))) }
    ensures unrecorded { D.told disk.new ≡ D.told disk.old }
    ensures cause { IfErr result (λ count. Rose (D.faults disk.old) (D.faults disk.new) × (count ≡ D.faults disk.new)) }
    ensures steady { D.faults disk.old ≤ D.faults disk.new }
{
    match usable_control(disk, system.generation, 1) {
        Ok(other) => Ok(are_ahead(system.epoch, one, other)),
        Err(count) => Err(count),
    }
}

// Whether both were saved behind this epoch: one of them at an epoch that was durable, since rows save more only when
// what they saved before is.
fn are_ahead(epoch: u64, one: Option<ControlSlot>, other: Option<ControlSlot>) -> bool
    ensures { result ≡ are_ahead epoch one other }
{
    match (one, other) {
        (Some(first), Some(second)) => epoch < first.saved && epoch < second.saved,
        _ => false,
    }
}
