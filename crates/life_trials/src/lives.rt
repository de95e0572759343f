//! Lives on the same disks, with restarts between.
ghost use Rattle.frag_map.specs.Shape.{IsShape};
ghost use Rattle.std.specs.Prelude.{◌≡◌, length};
ghost use Rattle.world_views.specs.Driven.{IsWorld};
ghost use Rattle.world_views.specs.WorldOf.{whole_of};

use crate::begin::{begin, begin_behind};
use crate::chance::go_on;
use crate::cluster::Cluster;
use crate::disks::{cut_all, drawn_disks};
use crate::fault::RunFault;
use crate::life::{Pace, live};
use crate::shapes::drawn;
use crate::tally::Tally;
use crate::told::{LIVES, Told};
use crate::trial::Trial;
use disk_world::Ended;
use host_io::MemDisk;
use life_judge::{Dice, judge};
use sig_core::{Key, Life};
use std::alloc::Global;
use std::sync::Wait;

/// A life has ten requests, and less than so many more.
const MORE: u64 = 60;
/// The same of a brief one.
const FEW: u64 = 8;
/// How often it is tried to begin a life: each try that fails uses up a call that is to fail, of which eight disks have
/// fewer than this together.
const TRIES: u64 = 1_500;

/// What a life left, and how many local checkpoints it reported.
#[derive(Drop)]
pub struct Lived {
    pub ended: Ended<MemDisk>,
    pub checkpoints: u64,
}

/// Has a cluster live on disks of which some calls fail, life after life, and judges each, and what it is restarted
/// with.
///
/// # Errors
/// The first law that is broken, why a life doesn't begin, or `NoMemory`.
pub fn run_one<W: Wait>(
    rt: &W,
    alloc: Global,
    seed: u64,
    fails: u64,
    keys: &[Key],
    tally: &mut Tally,
) -> Result<Told, RunFault> {
    let (mut dice, shape) = drawn(seed);
    let trial = Trial {
        shape,
        fails,
        brief: false,
        tries: TRIES,
        keys,
    };
    live_all(rt, alloc, &mut dice, &trial, tally)
}

// All lives of a run.
fn live_all<W: Wait>(
    rt: &W,
    alloc: Global,
    dice: &mut Dice,
    trial: &Trial,
    tally: &mut Tally,
) -> Result<Told, RunFault>
    requires { IsShape trial.now.shape }
{
    let nodes = trial.shape.nodes;
    let mut epochs = [0; LIVES];
    let mut rows = [0; LIVES];
    let disks = drawn_disks(alloc, dice, nodes)?;
    let cluster = begin(alloc, disks, trial.shape, trial.tries, tally)?;
    let mut lived = live_in(rt, alloc, dice, trial, cluster, tally)?;
    let mut checkpoints = lived.checkpoints;
    for at in 1..LIVES {
        lived = next_life(rt, alloc, dice, trial, lived.ended, tally)?;
        epochs[at] = lived.ended.life.start_epoch >> 32;
        rows[at] = lived.ended.life.start_rows.as_slice().len();
        checkpoints = checkpoints.saturating_add(lived.checkpoints);
    }
    Ok(Told::Restored {
        nodes,
        checkpoints,
        epochs,
        rows,
    })
}

/// The life behind one, judged, and what it began with, judged by that.
///
/// # Errors
/// The first law that is broken, why it doesn't begin, or `NoMemory`.
pub fn next_life<W: Wait>(
    rt: &W,
    alloc: Global,
    dice: &mut Dice,
    trial: &Trial,
    before: Ended<MemDisk>,
    tally: &mut Tally,
) -> Result<Lived, RunFault>
    requires { IsShape trial.now.shape }
{
    let Ended { life, disks } = before;
    let cluster = begin_behind(alloc, disks, trial, &life, tally)?;
    live_in(rt, alloc, dice, trial, cluster, tally)
}

/// A life, judged, and its end, mostly as power is cut.
///
/// # Errors
/// The first law that is broken, or `NoMemory`.
pub fn live_in<W: Wait>(
    rt: &W,
    alloc: Global,
    dice: &mut Dice,
    trial: &Trial,
    cluster: Cluster,
    tally: &mut Tally,
) -> Result<Lived, RunFault>
    requires shape { IsShape trial.now.shape }
    requires cluster { IsWorld (whole_of cluster.world) }
{
    let mut cluster = cluster;
    let lived = live_on(rt, alloc, dice, trial, &mut cluster);
    let mut ended = cluster.end(alloc);
    let checkpoints = lived?;
    if dice.roll(4) > 0 {
        cut_all(ended.disks.as_mut_slice());
    }
    tally.add_life(&ended.life);
    judge_life(alloc, dice, trial, &ended.life)?;
    Ok(Lived { ended, checkpoints })
}

// It is lived, and goes on without requests. Gives how many local checkpoints were reported.
fn live_on<W: Wait>(
    rt: &W,
    alloc: Global,
    dice: &mut Dice,
    trial: &Trial,
    cluster: &mut Cluster,
) -> Result<u64, RunFault>
    requires shape { IsShape trial.now.shape }
    requires cluster { IsWorld (whole_of cluster.old.world) }
{
    let more = if trial.brief {
        dice.roll(FEW)
    } else {
        dice.roll(MORE)
    };
    let pace = Pace {
        requests: more.saturating_add(10),
        saves: true,
        fails: trial.fails,
    };
    let checkpoints = live(rt, alloc, dice, cluster, &trial.shape, pace)?;
    go_on(alloc, dice, cluster, &trial.shape, 0)?;
    Ok(checkpoints)
}

fn judge_life(alloc: Global, dice: &mut Dice, trial: &Trial, life: &Life) -> Result<(), RunFault>
    requires { IsShape trial.now.shape }
{
    judge(alloc, dice, life, &trial.shape, &[], trial.keys, false)?;
    Ok(())
}
