//! How a life begins on disks, and the judgement of what it begins with.
ghost use Rattle.std.specs.Prelude.{◌≡◌, IfOk, length};
ghost use Rattle.frag_map.specs.Shape.{IsShape};
ghost use Rattle.world_views.specs.Driven.{IsWorld};
ghost use Rattle.world_views.specs.WorldOf.{whole_of};

use crate::cluster::Cluster;
use crate::disks::cut_all;
use crate::fault::RunFault;
use crate::tally::Tally;
use crate::trial::Trial;
use disk_world::{DiskWorld, Unopened};
use host_io::MemDisk;
use life_judge::judge_restart;
use sig_core::{Life, RestartFault, Shape};
use std::alloc::Global;

/// A life begins, at the first try at which no call of a disk fails. Power is cut behind every other try.
///
/// # Errors
/// That a restart is refused though no call failed, that none of so many tries went well, or `NoMemory`.
pub fn begin(
    alloc: Global,
    disks: Vec<MemDisk>,
    shape: Shape,
    tries: u64,
    tally: &mut Tally,
) -> Result<Cluster, RunFault>
    requires { IsShape shape }
    ensures { IfOk result (λ c. IsWorld (whole_of c.world)) }
{
    let mut disks = disks;
    for at in 0..tries {
        if disks.len() != usize::from(shape.nodes) {
            return Err(RunFault::Unopened);
        }
        match DiskWorld::open(alloc, disks, shape) {
            Ok(cluster) => return Ok(cluster),
            Err(unopened) => disks = again(unopened)?,
        }
        tally.add_failed_start();
        if at % 2 == 0 {
            cut_all(disks.as_mut_slice());
        }
    }
    Err(RunFault::Unopened)
}

// The disks, where it may be tried once more.
fn again(unopened: Unopened<MemDisk>) -> Result<Vec<MemDisk>, RunFault> {
    match unopened.fault {
        RestartFault::DiskFault { .. } => Ok(unopened.disks),
        RestartFault::NoMemory => Err(RunFault::NoMemory),
        fault => Err(RunFault::Refused(fault)),
    }
}

/// The life behind one begins, and what it begins with is judged by that.
///
/// # Errors
/// As of `begin`, or the first law that is broken.
pub fn begin_behind(
    alloc: Global,
    disks: Vec<MemDisk>,
    trial: &Trial,
    before: &Life,
    tally: &mut Tally,
) -> Result<Cluster, RunFault>
    requires { IsShape trial.now.shape }
    ensures { IfOk result (λ c. IsWorld (whole_of c.world)) }
{
    let cluster = begin(alloc, disks, trial.shape, trial.tries, tally)?;
    tally.add_restart();
    let judged = judge_restart(
        alloc,
        before,
        cluster.start_epoch(),
        cluster.start_rows(),
        trial.keys,
    );
    match judged {
        Ok(()) => Ok(cluster),
        Err(fault) => {
            // Ended, here and elsewhere: what a cluster is made of is then dropped in its own crate.
            let _ended = cluster.end(alloc);
            Err(RunFault::from(fault))
        }
    }
}
