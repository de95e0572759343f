//! Settling the disks of a cluster: what they read as then outlasts a loss of power.
ghost use Rattle.std.specs.Prelude.{◌≡◌, ◌≤◌, List, Some, IfErr, OnOk, length, map};
ghost use Rattle.host_io.specs.Call.{Call};
ghost use Rattle.sys_restart.specs.Answers.{AreSteady, HasCauseAmong, HasCauseOf};
ghost use Rattle.sys_restart.specs.Calls.{RunsOrWants};
ghost use Rattle.sys_restart.specs.LifeCalls.{HasRun};
ghost use Rattle.sys_restart.specs.Settle.{IsDiskFault, settled_records, sync_calls};

use host_io::{Disk, FILES, Failed};
use sig_core::RestartFault;

/// Syncs each file of each disk, the first of which is that of node 1, node after node.
///
/// What a start before this one wrote and didn't sync is read like anything else, and a loss of power
/// may still take it away. So nothing may rest on what disks say before this was done.
///
/// # Errors
/// `DiskFault` alone, where the count of that node's disk rose: the call failed, and none was made behind it.
pub fn settle_disks<D: Disk>(disks: &mut [D]) -> Result<(), RestartFault>
    requires few { length disks.old ≤ 8 }
    // Just these calls are made, node after node, up to the first that fails.
    ensures runs { (records : List (List Call)) → map D.told disks.old ≡ map Some records → HasRun (λ node. sync_calls) records (map D.told disks.new) result }
    // In the end these are their records, which tell the same bytes, of which nothing is dirty.
    ensures settled { (records : List (List Call)) → map D.told disks.old ≡ map Some records → OnOk result (map D.told disks.new ≡ map Some (settled_records records)) }
    ensures only { IfErr result IsDiskFault }
    ensures cause { HasCauseAmong (map D.faults disks.old) (map D.faults disks.new) result }
    ensures steady { AreSteady (map D.faults disks.old) (map D.faults disks.new) }
{
    for index in 0..disks.len() {
        match settle_disk(&mut disks[index], index as u8 + 1) {
            Ok(()) => {}
            Err(fault) => return Err(fault),
        }
    }
    Ok(())
}

// Syncs each file of a node's disk.
fn settle_disk<D: Disk>(disk: &mut D, node: u8) -> Result<(), RestartFault>
    ensures runs { (calls : List Call) → D.told disk.old ≡ Some calls → RunsOrWants sync_calls calls (D.told disk.new) result }
    ensures only { IfErr result IsDiskFault }
    ensures cause { HasCauseOf node (D.faults disk.old) (D.faults disk.new) result }
    ensures steady { D.faults disk.old ≤ D.faults disk.new }
{
    for file in 0..FILES {
        match disk.sync(file) {
            Ok(()) => {}
            Err(Failed) => {
                return Err(RestartFault::DiskFault {
                    node,
                    count: disk.faults(),
                });
            }
        }
    }
    Ok(())
}
