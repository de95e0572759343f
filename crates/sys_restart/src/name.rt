//! What one node's disk is given last: the system slot that names the next life.
ghost use Rattle.std.specs.Prelude.{◌≡◌, ◌≤◌, ◌-◌, ◌^◌, List, Err, OnOk, Some, false};
ghost use Rattle.frag_map.specs.Shape.{IsShape};
ghost use Rattle.host_io.specs.Call.{Call};
ghost use Rattle.redo_log.specs.Stored.{files_of};
ghost use Rattle.sig_core.specs.declared.fault.RestartFault.TheVariants.{NoMemory};
ghost use Rattle.sysfile_core.specs.declared.place.TheConstants.{SYSTEM_FILE};
ghost use Rattle.sys_restart.specs.Answers.{HasCauseOf};
ghost use Rattle.sys_restart.specs.Calls.{RunsOrWants, is_used_up, name_calls, next_system};
ghost use Rattle.sys_restart.specs.LifeCalls.{IsUsedUp};
ghost use Rattle.sys_restart.specs.Places.{free_system};
ghost use Rattle.sys_restart.specs.Prepared.{IsReady, KeepsOrNames, MayName};

use crate::places::free_system;
use crate::restored::{Restored, numbers_fit};
use host_io::{Disk, Failed};
use sig_core::{RestartFault, Shape, SystemSlot};
use sysfile_core::{SYSTEM_FILE, system_bytes, write_slot};

/// Writes the system slot of the next generation, of the same epoch, which lists all nodes, beside the
/// one in use.
///
/// # Errors
/// `DiskFault`: a call on the disk failed, and none was made behind it. It wants no memory.
pub fn name_node<D: Disk>(
    disk: &mut D,
    node: u8,
    shape: Shape,
    restored: &Restored,
) -> Result<(), RestartFault>
    requires shape { IsShape shape }
    requires unused { is_used_up restored.now ≡ false }
    // Just these calls are made, up to the first that fails.
    ensures runs { (calls : List Call) → D.told disk.old ≡ Some calls → RunsOrWants (name_calls calls shape restored.now) calls (D.told disk.new) result }
    // A stop at any moment leaves the epoch and the rows of a restart as they were.
    ensures stands { (calls now : List Call) → D.told disk.old ≡ Some calls → D.told disk.new ≡ Some now → KeepsOrNames shape node restored.now calls now }
    // In the end the life is named.
    ensures named { (calls now : List Call) → D.told disk.old ≡ Some calls → D.told disk.new ≡ Some now → OnOk result (MayName shape node restored.now calls → IsReady shape node restored.now now) }
    ensures memory { result ≡ Err NoMemory → ⊥ }
    ensures unused { IsUsedUp result → ⊥ }
    ensures cause { HasCauseOf node (D.faults disk.old) (D.faults disk.new) result }
    ensures steady { D.faults disk.old ≤ D.faults disk.new }
{
    numbers_fit(restored);
    name_disk(disk, node, shape, restored)
}

// The same, of which the calls alone are told.
fn name_disk<D: Disk>(
    disk: &mut D,
    node: u8,
    shape: Shape,
    restored: &Restored,
) -> Result<(), RestartFault>
    requires shape { IsShape shape }
    requires unused { is_used_up restored.now ≡ false }
    ensures runs { (calls : List Call) → D.told disk.old ≡ Some calls → RunsOrWants (name_calls calls shape restored.now) calls (D.told disk.new) result }
    ensures memory { result ≡ Err NoMemory → ⊥ }
    ensures unused { IsUsedUp result → ⊥ }
    ensures cause { HasCauseOf node (D.faults disk.old) (D.faults disk.new) result }
    ensures steady { D.faults disk.old ≤ D.faults disk.new }
{
    match free_system(disk) {
        Ok(which) => name_at(disk, node, which, shape, restored),
        Err(count) => Err(RestartFault::DiskFault { node, count }),
    }
}

// The same, at the place that isn't in use.
fn name_at<D: Disk>(
    disk: &mut D,
    node: u8,
    which: u8,
    shape: Shape,
    restored: &Restored,
) -> Result<(), RestartFault>
    requires which { which ≤ 1 }
    requires shape { IsShape shape }
    requires unused { is_used_up restored.now ≡ false }
    ensures runs { (calls : List Call) → D.told disk.old ≡ Some calls → which ≡ free_system (files_of calls SYSTEM_FILE) → RunsOrWants (name_calls calls shape restored.now) calls (D.told disk.new) result }
    ensures memory { result ≡ Err NoMemory → ⊥ }
    ensures unused { IsUsedUp result → ⊥ }
    ensures cause { HasCauseOf node (D.faults disk.old) (D.faults disk.new) result }
    ensures steady { D.faults disk.old ≤ D.faults disk.new }
{
    let slot = next_system(shape, restored);
    match write_slot(disk, SYSTEM_FILE, which, &system_bytes(&slot)) {
        Ok(()) => Ok(()),
        Err(Failed) => Err(RestartFault::DiskFault {
            node,
            count: disk.faults(),
        }),
    }
}

// The system slot with which the next life begins.
fn next_system(shape: Shape, restored: &Restored) -> SystemSlot
    requires shape { IsShape shape }
    requires unused { is_used_up restored.now ≡ false }
    ensures { result ≡ next_system shape restored.now }
{
    SystemSlot {
        shape,
        mask: all_of(shape.nodes),
        generation: restored.generation + 1,
        epoch: restored.epoch,
    }
}

// The mask of all of so many nodes.
fn all_of(nodes: u8) -> u8
    requires { nodes ≤ 8 }
    ensures { result ≡ 2 ^ nodes - 1 }
{
    ((1u16 << nodes) - 1) as u8
}
