//! Preparing the next life of a cluster.
ghost use Rattle.std.specs.Prelude.{◌≡◌, List, Err, OnOk, Some, false, true, length, map};
ghost use Rattle.frag_map.specs.Shape.{IsShape};
ghost use Rattle.host_io.specs.Call.{Call};
ghost use Rattle.sig_core.specs.declared.fault.RestartFault.TheVariants.{UsedUp};
ghost use Rattle.sys_restart.specs.Answers.{AreSteady, HasCauseAmong};
ghost use Rattle.sys_restart.specs.Calls.{is_used_up};
ghost use Rattle.sys_restart.specs.LifeCalls.{HasRun, IsUsedUp, RunsAll, name_asks, prepare_asks};
ghost use Rattle.sys_restart.specs.ReadyDisks.{AreReady, AreToPrepare};

use crate::name::name_node;
use crate::prepare::prepare_node;
use crate::restored::{Restored, numbers_fit};
use host_io::Disk;
use lcp_store::checkpoints_are_read;
use sig_core::{RestartFault, Shape};
use std::alloc::Global;

/// Whether no life can follow one of this generation that restores this epoch: the generation is
/// 2^64 - 1, or the checkpoint number of the epoch, which is its upper half, is 2^32 - 1.
pub fn is_used_up(restored: &Restored) -> bool
    ensures { result ≡ is_used_up restored.now }
{
    restored.generation == u64::MAX || restored.epoch >> 32 == u32::MAX as u64
}

/// Makes the disks of a cluster ready for its next life: each node's is prepared, in the order of the
/// nodes, and then each is given the system slot that names the life. What a stop leaves is told of
/// `prepare_node` and `name_node`.
///
/// # Errors
/// `UsedUp` exactly where the numbers are, before any call on a disk; `DiskFault` only where the count of
/// that node's disk rose; `NoMemory`.
pub fn prepare_life<D: Disk>(
    alloc: Global,
    disks: &mut [D],
    shape: Shape,
    restored: &Restored,
) -> Result<(), RestartFault>
    requires shape { IsShape shape }
    requires nodes { length disks.old ≡ shape.nodes }
    // Where the numbers are used up no disk is called.
    ensures used_up { is_used_up restored.now ≡ true → (result ≡ Err (UsedUp restored.now.generation restored.now.epoch)) × (disks.new ≡ disks.old) }
    ensures not_else { IsUsedUp result → is_used_up restored.now ≡ true }
    // Just these calls are made, node after node, up to the first that fails.
    ensures runs { (records : List (List Call)) → map D.told disks.old ≡ map Some records → is_used_up restored.now ≡ false → RunsAll shape restored.now records (map D.told disks.new) result }
    // In the end all disks are ready for the life behind what was restored.
    ensures ready { (records : List (List Call)) → map D.told disks.old ≡ map Some records → OnOk result (AreToPrepare shape restored.now records → AreReady shape restored.now (map D.told disks.new)) }
    ensures cause { HasCauseAmong (map D.faults disks.old) (map D.faults disks.new) result }
    ensures steady { AreSteady (map D.faults disks.old) (map D.faults disks.new) }
{
    if is_used_up(restored) {
        return Err(RestartFault::UsedUp {
            generation: restored.generation,
            epoch: restored.epoch,
        });
    }
    checkpoints_are_read();
    numbers_fit(restored);
    match prepare_all(alloc, disks, shape, restored) {
        Ok(()) => name_all(disks, shape, restored),
        Err(fault) => Err(fault),
    }
}

// Prepares each disk, in the order of the nodes.
fn prepare_all<D: Disk>(
    alloc: Global,
    disks: &mut [D],
    shape: Shape,
    restored: &Restored,
) -> Result<(), RestartFault>
    requires shape { IsShape shape }
    requires nodes { length disks.old ≡ shape.nodes }
    requires unused { is_used_up restored.now ≡ false }
    ensures runs { (records : List (List Call)) → map D.told disks.old ≡ map Some records → HasRun (prepare_asks shape restored.now records) records (map D.told disks.new) result }
    ensures unused { IsUsedUp result → ⊥ }
    ensures cause { HasCauseAmong (map D.faults disks.old) (map D.faults disks.new) result }
    ensures steady { AreSteady (map D.faults disks.old) (map D.faults disks.new) }
{
    for index in 0..disks.len() {
        match prepare_node(alloc, &mut disks[index], index as u8 + 1, shape, restored) {
            Ok(()) => {}
            Err(fault) => return Err(fault),
        }
    }
    Ok(())
}

// Names the life on each disk, in the order of the nodes.
fn name_all<D: Disk>(disks: &mut [D], shape: Shape, restored: &Restored) -> Result<(), RestartFault>
    requires shape { IsShape shape }
    requires nodes { length disks.old ≡ shape.nodes }
    requires unused { is_used_up restored.now ≡ false }
    ensures runs { (records : List (List Call)) → map D.told disks.old ≡ map Some records → HasRun (name_asks shape restored.now records) records (map D.told disks.new) result }
    ensures unused { IsUsedUp result → ⊥ }
    ensures cause { HasCauseAmong (map D.faults disks.old) (map D.faults disks.new) result }
    ensures steady { AreSteady (map D.faults disks.old) (map D.faults disks.new) }
{
    for index in 0..disks.len() {
        match name_node(&mut disks[index], index as u8 + 1, shape, restored) {
            Ok(()) => {}
            Err(fault) => return Err(fault),
        }
    }
    Ok(())
}
