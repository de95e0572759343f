//! Lives of one transaction, each of which fails at another moment.
ghost use Rattle.std.specs.Prelude.{IfOk, OnOk};
ghost use Rattle.frag_map.specs.Shape.{IsShape};
ghost use Rattle.world_views.specs.Driven.{IsWorld};
ghost use Rattle.world_views.specs.WorldOf.{whole_of};

use crate::begin::begin;
use crate::client::{Client, put_alone};
use crate::cluster::{Cluster, ask, drive, hear, pick};
use crate::disks::sound_disks;
use crate::fault::RunFault;
use crate::moments::{Failing, failing_of};
use crate::rows::rows_of;
use crate::tally::Tally;
use crate::told::Told;
use crate::traced::check_trace;
use disk_world::Ended;
use life_judge::{Dice, NodeRows, judge};
use sig_core::{ApiReq, HostId, Key, Life, NoMemory, Shape};
use std::alloc::Global;
use std::sync::Wait;
use world_views::{PARTS, Pick};

/// Two groups of two nodes, each with two fragments.
const SHAPE: Shape = Shape {
    nodes: 4,
    replicas: 2,
    fragments: 4,
};
/// How many rounds come at the end: enough that nodes which are cut off from each other suspect each other.
const ROUNDS: u32 = 4;

/// How many signals are taken where nothing fails.
///
/// # Errors
/// `NoMemory`.
pub fn events<W: Wait>(rt: &W, alloc: Global) -> Result<u64, RunFault> {
    let mut tally = Tally::new();
    let mut cluster = fresh(rt, alloc, &mut tally)?;
    let taken = take_all(alloc, &mut cluster);
    let _ended = cluster.end(alloc);
    taken
}

fn take_all(alloc: Global, cluster: &mut Cluster) -> Result<u64, RunFault>
    requires { IsWorld (whole_of cluster.old.world) }
{
    let mut client = Client::begin(alloc, cluster)?;
    client.go_on(alloc, cluster, u64::MAX)
}

/// Has a cluster do one transaction, amid which that fails which the run of this number has fail, if there is such a
/// run; where nothing fails so many signals are taken. Judges what it did, and what its nodes tell of their rows at the
/// end. The trace has to be accepted, and the client to be told how the transaction ended, unless that may wait for a
/// cut.
///
/// # Errors
/// The first of these that isn't so, or `NoMemory`.
pub fn run_one<W: Wait>(
    rt: &W,
    alloc: Global,
    number: u64,
    events: u64,
    keys: &[Key],
    tally: &mut Tally,
) -> Result<Told, RunFault> {
    let Some(failing) = failing_of(number, events) else {
        return Ok(Told::Alone);
    };
    let mut cluster = fresh(rt, alloc, tally)?;
    let lived = live(rt, alloc, &mut cluster, failing);
    let Ended { life, .. } = cluster.end(alloc);
    let Some(lived) = lived? else {
        return Ok(Told::Alone);
    };
    tally.add_life(&life);
    judge_life(alloc, number, &life, lived.rows.as_slice(), keys)?;
    if !lived.is_told && !may_wait(failing) {
        return Err(RunFault::Untold);
    }
    Ok(Told::Alone)
}

// What a life came to: the rows that its nodes tell, and whether the client was told how its transaction ended.
#[derive(Drop)]
struct Lived {
    rows: Vec<NodeRows>,
    is_told: bool,
}

// The transaction, and what fails at its moment, if there is such a moment.
fn live<W: Wait>(
    rt: &W,
    alloc: Global,
    cluster: &mut Cluster,
    failing: Failing,
) -> Result<Option<Lived>, RunFault>
    requires { IsWorld (whole_of cluster.old.world) }
{
    let mut client = Client::begin(alloc, cluster)?;
    if !fail(alloc, cluster, &mut client, failing)? {
        return Ok(None);
    }
    let rows = end(rt, alloc, cluster, &mut client)?;
    Ok(Some(Lived {
        rows,
        is_told: client.is_told(),
    }))
}

// A cluster in which a row was written.
fn fresh<W: Wait>(rt: &W, alloc: Global, tally: &mut Tally) -> Result<Cluster, RunFault>
    ensures { IfOk result (λ c. IsWorld (whole_of c.world)) }
{
    let disks = sound_disks(alloc, SHAPE.nodes)?;
    let mut cluster = begin(alloc, disks, SHAPE, 1, tally)?;
    match write_row(rt, alloc, &mut cluster) {
        Ok(()) => Ok(cluster),
        Err(fault) => {
            let _ended = cluster.end(alloc);
            Err(fault)
        }
    }
}

fn write_row<W: Wait>(rt: &W, alloc: Global, cluster: &mut Cluster) -> Result<(), RunFault>
    requires { IsWorld (whole_of cluster.old.world) }
    ensures { OnOk result (IsWorld (whole_of cluster.new.world)) }
{
    let request = put_alone(alloc)?;
    ask(alloc, cluster, request)?;
    drive(rt, alloc, cluster)?;
    hear(cluster);
    Ok(())
}

// What is to fail fails at its moment. Says whether there is such a moment.
fn fail(
    alloc: Global,
    cluster: &mut Cluster,
    client: &mut Client,
    failing: Failing,
) -> Result<bool, RunFault>
    requires { IsWorld (whole_of cluster.old.world) }
    ensures { OnOk result (IsWorld (whole_of cluster.new.world)) }
{
    match failing {
        Failing::Stop { after, node } => {
            client.go_on(alloc, cluster, after)?;
            stop(alloc, cluster, node)?;
        }
        Failing::Cut { after, one, other } => {
            client.go_on(alloc, cluster, after)?;
            cut_off(alloc, cluster, one, other)?;
            cut_off(alloc, cluster, other, one)?;
        }
        Failing::Stops {
            after,
            node,
            then,
            other,
            last,
        } => {
            client.go_on(alloc, cluster, after)?;
            stop(alloc, cluster, node)?;
            if client.go_on(alloc, cluster, then)? < then {
                return Ok(false);
            }
            if last {
                return Err(RunFault::Unrest);
            }
            stop(alloc, cluster, other)?;
        }
    }
    Ok(true)
}

// Whether the transaction may wait for nodes that are cut off from each other: each node is watched by the next one
// alone, so nobody suspects them where neither is next to the other.
fn may_wait(failing: Failing) -> bool {
    match failing {
        Failing::Cut { one, other, .. } => one % 2 == other % 2,
        _ => false,
    }
}

// The host of this part of a node, from 0.
fn host_at(node: u8, part: u32) -> HostId {
    HostId(
        u32::from(node)
            .saturating_sub(1)
            .saturating_mul(PARTS)
            .saturating_add(1)
            .saturating_add(part),
    )
}

// All hosts of a node stop at once.
fn stop(alloc: Global, cluster: &mut Cluster, node: u8) -> Result<(), RunFault>
    requires { IsWorld (whole_of cluster.old.world) }
    ensures { OnOk result (IsWorld (whole_of cluster.new.world)) }
{
    for part in 0..PARTS {
        let host = host_at(node, part);
        pick(alloc, cluster, Pick::Stop { host, lost: 0 })?;
    }
    Ok(())
}

// All hosts of a node cut off another one.
fn cut_off(alloc: Global, cluster: &mut Cluster, one: u8, other: u8) -> Result<(), RunFault>
    requires { IsWorld (whole_of cluster.old.world) }
    ensures { OnOk result (IsWorld (whole_of cluster.new.world)) }
{
    for part in 0..PARTS {
        let host = host_at(one, part);
        pick(alloc, cluster, Pick::Cut { host, node: other })?;
    }
    Ok(())
}

// All comes to rest, some rounds pass, and the nodes tell their rows.
fn end<W: Wait>(
    rt: &W,
    alloc: Global,
    cluster: &mut Cluster,
    client: &mut Client,
) -> Result<Vec<NodeRows>, RunFault>
    requires { IsWorld (whole_of cluster.old.world) }
    ensures { OnOk result (IsWorld (whole_of cluster.new.world)) }
{
    client.go_on(alloc, cluster, u64::MAX)?;
    for _ in 0..ROUNDS {
        ask(alloc, cluster, ApiReq::Tick { round: 1, of: 1 })?;
        client.go_on(alloc, cluster, u64::MAX)?;
    }
    Ok(all_rows(rt, alloc, cluster)?)
}

fn all_rows<W: Wait>(
    rt: &W,
    alloc: Global,
    cluster: &mut Cluster,
) -> Result<Vec<NodeRows>, NoMemory>
    requires { IsWorld (whole_of cluster.old.world) }
    ensures { OnOk result (IsWorld (whole_of cluster.new.world)) }
{
    let mut nodes = Vec::new(alloc);
    for node in 1..=SHAPE.nodes {
        nodes.push(rows_of(rt, alloc, cluster, node)?)?;
    }
    Ok(nodes)
}

fn judge_life(
    alloc: Global,
    number: u64,
    life: &Life,
    rows: &[NodeRows],
    keys: &[Key],
) -> Result<(), RunFault> {
    let mut dice = Dice::new(number);
    judge(alloc, &mut dice, life, &SHAPE, rows, keys, true)?;
    check_trace(alloc, SHAPE, life)
}
