//! The rows that a control slot names.
ghost use Rattle.std.specs.Prelude.{◌≡◌, ◌≤◌, List, Some};
ghost use Rattle.host_io.specs.Call.{Call};
ghost use Rattle.redo_log.specs.Stored.{files_of};
ghost use Rattle.sysfile_core.specs.Found.{HasRedo};
ghost use Rattle.sys_restart.specs.Answers.{HasCause, Reads};
ghost use Rattle.sys_restart.specs.SlotRows.{rows_of_slot};

use crate::rows::read_rows;
use host_io::Disk;
use redo_log::replay;
use row_map::RowMap;
use sig_core::{ControlSlot, ReadFault};
use std::alloc::Global;

/// The rows of a control slot up to an epoch: those of its checkpoint, onto which its redo is replayed,
/// but for what was committed in a later epoch.
///
/// # Errors
/// `Damaged` exactly where the checkpoint or the redo is, at the first byte that doesn't fit, as where the
/// checkpoint has a row of a later epoch; `DiskFault`; `NoMemory`.
pub(crate) fn rows_of_slot<D: Disk>(
    alloc: Global,
    disk: &mut D,
    slot: &ControlSlot,
    epoch: u64,
) -> Result<RowMap, ReadFault>
    requires { HasRedo slot.now }
    ensures read { (calls : List Call) → D.told disk.old ≡ Some calls → Reads (rows_of_slot epoch (files_of calls) slot.now) result }
    ensures unrecorded { D.told disk.new ≡ D.told disk.old }
    ensures cause { HasCause (D.faults disk.old) (D.faults disk.new) result }
    ensures steady { D.faults disk.old ≤ D.faults disk.new }
{
    let mut rows = match read_rows(alloc, disk, slot.ckpt_file, slot.ckpt_size, epoch) {
        Ok(rows) => rows,
        Err(fault) => return Err(fault),
    };
    match replay(
        alloc,
        &mut rows,
        disk,
        slot.parity,
        slot.redo_start,
        slot.redo_end,
        epoch,
    ) {
        Ok(()) => Ok(rows),
        Err(fault) => Err(fault),
    }
}
