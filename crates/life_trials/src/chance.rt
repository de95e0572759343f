//! What happens to a cluster by chance.
ghost use Rattle.std.specs.Prelude.{◌≡◌, ◌≤◌, ◌<◌, ◌^◌, OnOk};
ghost use Rattle.frag_map.specs.Shape.{IsShape};
ghost use Rattle.world_views.specs.Driven.{IsWorld};
ghost use Rattle.world_views.specs.WorldOf.{whole_of};

use crate::cluster::{Cluster, pick};
use crate::fault::RunFault;
use life_judge::Dice;
use sig_core::{HostId, Shape};
use std::alloc::Global;
use world_views::{PARTS, Pick};

/// How often a signal is taken after a request, at most, for each host.
const TAKES: u64 = 300;
/// How many times fewer signals are taken after every other request, so that many are under way at once.
const HASTE: u64 = 16;

/// Signals are taken, of links that are drawn. Hosts fail now and then, where `fails` isn't 0, and in proportion to it.
///
/// # Errors
/// `NoMemory`.
pub fn go_on(
    alloc: Global,
    dice: &mut Dice,
    cluster: &mut Cluster,
    shape: &Shape,
    fails: u64,
) -> Result<(), RunFault>
    requires cluster { IsWorld (whole_of cluster.old.world) }
    requires shape { IsShape shape.now }
    ensures { OnOk result (IsWorld (whole_of cluster.new.world)) }
{
    let most = if dice.roll(2) == 0 {
        takes(shape)
    } else {
        takes(shape) / HASTE + 1
    };
    for _ in 0..dice.roll(most) {
        take_one(alloc, dice, cluster, shape)?;
        if fails > 0 && dice.roll(20 * takes(shape)) < fails {
            fail_one(alloc, dice, cluster, shape)?;
        }
    }
    Ok(())
}

// How often a signal is taken at most after a request.
fn takes(shape: &Shape) -> u64
    ensures positive { 0 < result }
    ensures few { result < 2 ^ 32 }
{
    (u64::from(shape.nodes) * 3 + 1) * TAKES
}

// A host of the cluster; the first of them only where it may be the shell's.
fn host_of(dice: &mut Dice, shape: &Shape, first: u64) -> HostId
    requires shape { IsShape shape.now }
    requires first { first ≤ 1 }
{
    let hosts = u64::from(shape.nodes) * u64::from(PARTS) + 1 - first;
    HostId((first + dice.roll(hosts)) as u32)
}

// The first signal of a link is taken, where there is one on the link that is drawn.
fn take_one(
    alloc: Global,
    dice: &mut Dice,
    cluster: &mut Cluster,
    shape: &Shape,
) -> Result<(), RunFault>
    requires cluster { IsWorld (whole_of cluster.old.world) }
    requires shape { IsShape shape.now }
    ensures { OnOk result (IsWorld (whole_of cluster.new.world)) }
{
    let host = host_of(dice, shape, 0);
    let from = host_of(dice, shape, 0);
    pick(alloc, cluster, Pick::Take { host, from })
}

// A host stops, or cuts off a node.
fn fail_one(
    alloc: Global,
    dice: &mut Dice,
    cluster: &mut Cluster,
    shape: &Shape,
) -> Result<(), RunFault>
    requires cluster { IsWorld (whole_of cluster.old.world) }
    requires shape { IsShape shape.now }
    ensures { OnOk result (IsWorld (whole_of cluster.new.world)) }
{
    let host = host_of(dice, shape, 1);
    let picked = if dice.roll(3) == 0 {
        Pick::Cut {
            host,
            node: 1 + dice.roll(u64::from(shape.nodes)) as u8,
        }
    } else {
        Pick::Stop {
            host,
            lost: dice.roll(3) as u32,
        }
    };
    pick(alloc, cluster, picked)
}
