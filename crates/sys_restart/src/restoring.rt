//! What a cluster restarts with.
ghost use Rattle.std.specs.Prelude.{◌≡◌, ℕ, List, IfOk, None, Ok, Some, length, map, replicate};
ghost use Rattle.std.specs.FinMap as rows;
ghost use Rattle.frag_map.specs.Shape.{IsShape};
ghost use Rattle.host_io.specs.Call.{Call};
ghost use Rattle.sys_restart.specs.Answers.{AreSteady, HasCauseAmong, ReadsAll};
ghost use Rattle.sys_restart.specs.Files.{disks_of};
ghost use Rattle.sys_restart.specs.Restored.{nothing, restored_by, restored_of};

use crate::groups::rows_of_groups;
use crate::latest::latest;
use crate::lost::none_lost;
use crate::restored::Restored;
use host_io::Disk;
use row_map::RowMap;
use sig_core::{NoMemory, RestartFault, Seq, Shape, SystemSlot};
use std::alloc::Global;

/// What the disks of a cluster of this shape have: the generation and the epoch of the latest system slot that is
/// open on any of them, and the rows of each group in that epoch. The disks are only read.
///
/// # Errors
/// `OtherShape` exactly where an open system slot is of another shape; `Damaged` exactly where what is read
/// isn't in its grammar, no node of a group that is listed has saved the epoch, the control slots of one tell
/// of a later epoch that was durable, its rows or its redo are of another group, a row of its checkpoint is of a
/// later epoch, or no disk has a system slot though one has a control slot of saved rows, the first of them by
/// node and place, system slots first; `DiskFault` only where the count of that node's disk rose; `NoMemory`.
pub fn restore<D: Disk>(
    alloc: Global,
    disks: &mut [D],
    shape: Shape,
) -> Result<Restored, RestartFault>
    requires shape { IsShape shape }
    requires nodes { length disks.old ≡ shape.nodes }
    ensures read { (records : List (List Call)) → map D.told disks.old ≡ map Some records → ReadsAll (restored_of shape (disks_of records)) result }
    ensures unrecorded { map D.told disks.new ≡ map D.told disks.old }
    ensures cause { HasCauseAmong (map D.faults disks.old) (map D.faults disks.new) result }
    ensures steady { AreSteady (map D.faults disks.old) (map D.faults disks.new) }
{
    match latest(disks, shape) {
        Ok(Some(system)) => restore_under(alloc, disks, shape, &system),
        Ok(None) => restore_none(alloc, disks, &shape),
        Err(fault) => Err(fault),
    }
}

// What disks have under their latest system slot.
fn restore_under<D: Disk>(
    alloc: Global,
    disks: &mut [D],
    shape: Shape,
    system: &SystemSlot,
) -> Result<Restored, RestartFault>
    requires shape { IsShape shape }
    requires nodes { length disks.old ≡ shape.nodes }
    ensures read { (records : List (List Call)) → map D.told disks.old ≡ map Some records → ReadsAll (restored_by shape (disks_of records) (Ok (Some system.now))) result }
    ensures unrecorded { map D.told disks.new ≡ map D.told disks.old }
    ensures cause { HasCauseAmong (map D.faults disks.old) (map D.faults disks.new) result }
    ensures steady { AreSteady (map D.faults disks.old) (map D.faults disks.new) }
{
    match rows_of_groups(alloc, disks, shape, system) {
        Ok(groups) => Ok(Restored {
            generation: system.generation,
            epoch: system.epoch,
            groups,
        }),
        Err(fault) => Err(fault),
    }
}

// What disks have that have no system slot.
fn restore_none<D: Disk>(
    alloc: Global,
    disks: &mut [D],
    shape: &Shape,
) -> Result<Restored, RestartFault>
    requires shape { IsShape shape.now }
    requires nodes { length disks.old ≡ shape.now.nodes }
    ensures read { (records : List (List Call)) → map D.told disks.old ≡ map Some records → ReadsAll (restored_by shape.now (disks_of records) (Ok None)) result }
    ensures unrecorded { map D.told disks.new ≡ map D.told disks.old }
    ensures cause { HasCauseAmong (map D.faults disks.old) (map D.faults disks.new) result }
    ensures steady { AreSteady (map D.faults disks.old) (map D.faults disks.new) }
{
    match none_lost(disks) {
        Ok(()) => nothing(alloc, shape),
        Err(fault) => Err(fault),
    }
}

// What disks have that were never written.
fn nothing(alloc: Global, shape: &Shape) -> Result<Restored, RestartFault>
    requires { IsShape shape.now }
    ensures read { ReadsAll (Ok (nothing shape.now)) result }
    ensures cause { (before now : List ℕ) → HasCauseAmong before now result }
{
    match without_rows(alloc, shape.nodes / shape.replicas) {
        Ok(groups) => Ok(Restored {
            generation: 0,
            epoch: 0,
            groups,
        }),
        Err(NoMemory) => Err(RestartFault::NoMemory),
    }
}

// So many tables without rows.
fn without_rows(alloc: Global, count: u8) -> Result<Seq<RowMap>, NoMemory>
    ensures { IfOk result (λ tables. tables ≡ replicate count rows.empty) }
{
    let mut tables = Seq::new(alloc);
    for _ in 0..count {
        tables.push(RowMap::new(alloc))?;
    }
    Ok(tables)
}
