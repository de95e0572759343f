//! A life that stands alone.
ghost use Rattle.std.specs.Prelude.{OnOk};
ghost use Rattle.frag_map.specs.Shape.{IsShape};
ghost use Rattle.world_views.specs.Driven.{IsWorld};
ghost use Rattle.world_views.specs.WorldOf.{whole_of};

use crate::begin::begin;
use crate::cluster::{Cluster, ask, drive, hear, settle};
use crate::disks::sound_disks;
use crate::fault::RunFault;
use crate::life::{Pace, live};
use crate::rows::{peek_rows, rows_of};
use crate::shapes::drawn;
use crate::tally::Tally;
use crate::told::Told;
use disk_world::Ended;
use life_judge::{Dice, NodeRows, judge};
use sig_core::{ApiReq, Key, NoMemory, Shape};
use std::alloc::Global;
use std::sync::Wait;

/// How many requests the life has.
const REQUESTS: u64 = 90;
/// How many rounds come at its end: enough for time-outs, and for the views that follow from stops.
const ROUNDS: u32 = 16;

/// Has a cluster live on disks that never fail, and judges what it did, and what its nodes tell of their rows at the
/// end: once all rests, or as it stands.
///
/// # Errors
/// The first law that is broken, or `NoMemory`.
pub fn run_one<W: Wait>(
    rt: &W,
    alloc: Global,
    seed: u64,
    fails: u64,
    keys: &[Key],
    tally: &mut Tally,
) -> Result<Told, RunFault> {
    let (mut dice, shape) = drawn(seed);
    let disks = sound_disks(alloc, shape.nodes)?;
    let mut cluster = begin(alloc, disks, shape, 1, tally)?;
    let lived = live_on(rt, alloc, &mut dice, &mut cluster, &shape, fails);
    let Ended { life, .. } = cluster.end(alloc);
    let Lived { rows, rests } = lived?;
    tally.add_life(&life);
    judge(
        alloc,
        &mut dice,
        &life,
        &shape,
        rows.as_slice(),
        keys,
        rests,
    )?;
    Ok(Told::Alone)
}

// The rows that the nodes of a life tell, and whether it rests.
#[derive(Drop)]
struct Lived {
    rows: Vec<NodeRows>,
    rests: bool,
}

fn live_on<W: Wait>(
    rt: &W,
    alloc: Global,
    dice: &mut Dice,
    cluster: &mut Cluster,
    shape: &Shape,
    fails: u64,
) -> Result<Lived, RunFault>
    requires shape { IsShape shape.now }
    requires cluster { IsWorld (whole_of cluster.old.world) }
{
    let pace = Pace {
        requests: REQUESTS,
        saves: false,
        fails,
    };
    live(rt, alloc, dice, cluster, shape, pace)?;
    let rests = dice.roll(3) > 0;
    let rows = end(rt, alloc, cluster, shape, rests)?;
    Ok(Lived { rows, rests })
}

// The rows of each node at the end: once it rests, after some rounds, or as it stands.
fn end<W: Wait>(
    rt: &W,
    alloc: Global,
    cluster: &mut Cluster,
    shape: &Shape,
    rests: bool,
) -> Result<Vec<NodeRows>, RunFault>
    requires { IsWorld (whole_of cluster.old.world) }
    ensures { OnOk result (IsWorld (whole_of cluster.new.world)) }
{
    if rests {
        rest(rt, alloc, cluster)?;
    }
    let mut nodes = Vec::new(alloc);
    for node in 1..=shape.nodes {
        nodes.push(node_rows(rt, alloc, cluster, node, rests)?)?;
    }
    Ok(nodes)
}

// All comes to rest.
fn rest<W: Wait>(rt: &W, alloc: Global, cluster: &mut Cluster) -> Result<(), NoMemory>
    requires { IsWorld (whole_of cluster.old.world) }
    ensures { OnOk result (IsWorld (whole_of cluster.new.world)) }
{
    settle(rt, alloc, cluster)?;
    for _ in 0..ROUNDS {
        ask(alloc, cluster, ApiReq::Tick { round: 1, of: 1 })?;
        drive(rt, alloc, cluster)?;
    }
    hear(cluster);
    Ok(())
}

fn node_rows<W: Wait>(
    rt: &W,
    alloc: Global,
    cluster: &mut Cluster,
    node: u8,
    rests: bool,
) -> Result<NodeRows, RunFault>
    requires { IsWorld (whole_of cluster.old.world) }
    ensures { OnOk result (IsWorld (whole_of cluster.new.world)) }
{
    if rests {
        Ok(rows_of(rt, alloc, cluster, node)?)
    } else {
        peek_rows(alloc, cluster, node)
    }
}
