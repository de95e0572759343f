//! The cluster of a life: what is asked of it, and what happens to it.
ghost use Rattle.std.specs.Prelude.{◌≡◌, OnOk};
ghost use Rattle.world_views.specs.Driven.{IsWorld};
ghost use Rattle.world_views.specs.WorldOf.{whole_of};

use crate::fault::RunFault;
use disk_world::DiskWorld;
use host_io::MemDisk;
use sig_core::{Answer, ApiReply, ApiReq, NoMemory, UAnswer};
use std::alloc::Global;
use std::sync::Wait;
use world_views::{Pick, ScheduleFault};

/// A cluster whose nodes have disks in memory, in one of its lives.
pub type Cluster = DiskWorld<MemDisk>;

/// Asks the shell for something.
///
/// # Errors
/// `NoMemory`.
pub fn ask(alloc: Global, cluster: &mut Cluster, request: ApiReq) -> Result<(), NoMemory>
    requires { IsWorld (whole_of cluster.old.world) }
    ensures { OnOk result (IsWorld (whole_of cluster.new.world)) }
{
    cluster.ask(alloc, request)
}

/// Drives the cluster until nothing is under way.
///
/// # Errors
/// `NoMemory`.
pub fn drive<W: Wait>(rt: &W, alloc: Global, cluster: &mut Cluster) -> Result<(), NoMemory>
    requires { IsWorld (whole_of cluster.old.world) }
    ensures { OnOk result (IsWorld (whole_of cluster.new.world)) }
{
    cluster.drive(rt, alloc)
}

/// Takes the signal that driving takes next. Says whether there was one.
///
/// # Errors
/// `NoMemory`.
pub fn take_first(alloc: Global, cluster: &mut Cluster) -> Result<bool, NoMemory>
    requires { IsWorld (whole_of cluster.old.world) }
    ensures { OnOk result (IsWorld (whole_of cluster.new.world)) }
{
    cluster.step(alloc)
}

/// Drives the cluster until nothing is under way, and asks what an unanswered command waits for.
///
/// # Errors
/// `NoMemory`.
pub fn settle<W: Wait>(rt: &W, alloc: Global, cluster: &mut Cluster) -> Result<(), NoMemory>
    requires { IsWorld (whole_of cluster.old.world) }
    ensures { OnOk result (IsWorld (whole_of cluster.new.world)) }
{
    drive(rt, alloc, cluster)?;
    ask_about(rt, alloc, cluster)
}

/// Asks what an unanswered command waits for, where there is one.
///
/// # Errors
/// `NoMemory`.
pub fn ask_about<W: Wait>(rt: &W, alloc: Global, cluster: &mut Cluster) -> Result<(), NoMemory>
    requires { IsWorld (whole_of cluster.old.world) }
    ensures { OnOk result (IsWorld (whole_of cluster.new.world)) }
{
    if !cluster.is_left_open() {
        return Ok(());
    }
    ask(alloc, cluster, ApiReq::Waits)?;
    drive(rt, alloc, cluster)?;
    ask(alloc, cluster, ApiReq::Pending)?;
    drive(rt, alloc, cluster)
}

/// Gives the shell all replies, and tells how many of them are local checkpoints.
pub fn hear(cluster: &mut Cluster) -> u64
    requires { IsWorld (whole_of cluster.old.world) }
    ensures { IsWorld (whole_of cluster.new.world) }
{
    let mut checkpoints = 0u64;
    for _ in 0..u64::MAX {
        match next_reply(cluster) {
            Some(ApiReply::Checkpoint { epoch: _ }) => checkpoints = checkpoints.saturating_add(1),
            Some(_) => (),
            None => return checkpoints,
        }
    }
    checkpoints
}

/// The next reply, in order.
pub fn next_reply(cluster: &mut Cluster) -> Option<ApiReply>
    requires { IsWorld (whole_of cluster.old.world) }
    ensures { IsWorld (whole_of cluster.new.world) }
{
    // Names the type of the answers, which the check of this function wants to have seen.
    let _unused: Option<(Answer, UAnswer)> = None;
    cluster.next_reply()
}

/// Does what a pick says, where it can be done.
///
/// # Errors
/// `NoMemory`.
pub fn pick(alloc: Global, cluster: &mut Cluster, pick: Pick) -> Result<(), RunFault>
    requires { IsWorld (whole_of cluster.old.world) }
    ensures { OnOk result (IsWorld (whole_of cluster.new.world)) }
{
    match cluster.pick(alloc, pick) {
        Err(ScheduleFault::NoMemory) => Err(RunFault::NoMemory),
        _ => Ok(()),
    }
}
