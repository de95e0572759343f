//! Lives of a world, as traces.
ghost use Rattle.std.specs.Prelude.{IfOk, OnOk};
ghost use Rattle.frag_map.specs.Shape.{IsShape};
ghost use Rattle.world_views.specs.Driven.{IsWorld};
ghost use Rattle.world_views.specs.WorldOf.{whole_of};

use crate::fault::RunFault;
use gcp_master::MICROS;
use sig_core::{ApiReq, HeldOp, HostId, Key, Life, NoMemory, Op, Seq, Shape, Value};
use std::alloc::Global;
use std::sync::Wait;
use trace_write::{WriteFault, write_trace};
use world_views::{Pick, ScheduleFault, World};

// Two nodes, each with a replica of all rows.
const PAIR: Shape = Shape {
    nodes: 2,
    replicas: 2,
    fragments: 1,
};

// A node that has all rows alone.
const ALONE: Shape = Shape {
    nodes: 1,
    replicas: 1,
    fragments: 1,
};

/// What fails in a life.
#[derive(Clone, Copy, PartialEq, Eq)]
pub enum Failing {
    Nothing,
    /// A node is killed by the shell.
    Kill,
    /// The shell cuts two nodes off from each other.
    Cut,
    /// A host stops by itself, and so many signals of each of its links are lost.
    Stop(u32),
    /// A host cuts off a node by itself.
    CutOff,
    /// A node's disk fails.
    Disk,
}

// A world in which nothing has happened.
fn fresh(alloc: Global, shape: Shape) -> Result<World, NoMemory>
    requires { IsShape shape }
    ensures { IfOk result (λ world. IsWorld (whole_of world)) }
{
    World::new(alloc, shape, MICROS, 0, &[])
}

fn begin(alloc: Global, world: &mut World, request: ApiReq) -> Result<(), NoMemory>
    requires { IsWorld (whole_of world.old) }
    ensures { OnOk result (IsWorld (whole_of world.new)) }
{
    world.ask(alloc, request)
}

fn drive<W: Wait>(rt: &W, alloc: Global, world: &mut World) -> Result<(), NoMemory>
    requires { IsWorld (whole_of world.old) }
    ensures { OnOk result (IsWorld (whole_of world.new)) }
{
    world.drive(rt, alloc)
}

fn ask<W: Wait>(rt: &W, alloc: Global, world: &mut World, request: ApiReq) -> Result<(), NoMemory>
    requires { IsWorld (whole_of world.old) }
    ensures { OnOk result (IsWorld (whole_of world.new)) }
{
    begin(alloc, world, request)?;
    drive(rt, alloc, world)
}

// Takes the signal that driving takes next. Says whether there was one.
fn take_first(alloc: Global, world: &mut World) -> Result<bool, NoMemory>
    requires { IsWorld (whole_of world.old) }
    ensures { OnOk result (IsWorld (whole_of world.new)) }
{
    let taken = world.step(alloc)?;
    Ok(taken.is_some())
}

// Does what a pick says, if that can be done.
fn pick(alloc: Global, world: &mut World, pick: Pick) -> Result<(), NoMemory>
    requires { IsWorld (whole_of world.old) }
    ensures { OnOk result (IsWorld (whole_of world.new)) }
{
    match world.schedule(alloc, &[pick]) {
        Ok(()) => Ok(()),
        Err(ScheduleFault::Empty { at: _ }) => Ok(()),
        Err(ScheduleFault::Gone { at: _ }) => Ok(()),
        Err(ScheduleFault::NoMemory) => Err(NoMemory),
    }
}

// The disk of node 2 fails, if its rows' host runs.
fn fail_disk(alloc: Global, world: &mut World) -> Result<(), NoMemory>
    requires { IsWorld (whole_of world.old) }
    ensures { OnOk result (IsWorld (whole_of world.new)) }
{
    let host = HostId(6);
    if !world.runs(host) {
        return Ok(());
    }
    world.fail_disk(alloc, host, 1)
}

// What is to fail fails at node 2.
fn fail(alloc: Global, world: &mut World, failing: Failing) -> Result<(), NoMemory>
    requires { IsWorld (whole_of world.old) }
    ensures { OnOk result (IsWorld (whole_of world.new)) }
{
    let host = HostId(5);
    match failing {
        Failing::Nothing => Ok(()),
        Failing::Kill => begin(alloc, world, ApiReq::Kill { node: 2 }),
        Failing::Cut => begin(alloc, world, ApiReq::Cut { one: 1, other: 2 }),
        Failing::Stop(lost) => pick(alloc, world, Pick::Stop { host, lost }),
        Failing::CutOff => pick(alloc, world, Pick::Cut { host, node: 1 }),
        Failing::Disk => fail_disk(alloc, world),
    }
}

fn put(alloc: Global, name: Option<u16>, key: &[u8]) -> Result<ApiReq, RunFault> {
    let op = HeldOp::new(alloc, Op::Put(Key::new(key)?, Value::new(b"1")?))?;
    Ok(ApiReq::Operate { name, op })
}

// A transaction of one operation puts a row.
fn put_alone<W: Wait>(rt: &W, alloc: Global, world: &mut World) -> Result<(), RunFault>
    requires { IsWorld (whole_of world.old) }
    ensures { OnOk result (IsWorld (whole_of world.new)) }
{
    let request = put(alloc, None, b"a")?;
    Ok(ask(rt, alloc, world, request)?)
}

// The transaction that is open begins to put one.
fn begin_put(alloc: Global, world: &mut World) -> Result<(), RunFault>
    requires { IsWorld (whole_of world.old) }
    ensures { OnOk result (IsWorld (whole_of world.new)) }
{
    let request = put(alloc, Some(1), b"b")?;
    Ok(begin(alloc, world, request)?)
}

// A transaction puts a row, and another one has begun to put one as something fails.
fn begin_work<W: Wait>(
    rt: &W,
    alloc: Global,
    world: &mut World,
    failing: Failing,
) -> Result<(), RunFault>
    requires { IsWorld (whole_of world.old) }
    ensures { OnOk result (IsWorld (whole_of world.new)) }
{
    let node = Some(2);
    put_alone(rt, alloc, world)?;
    ask(rt, alloc, world, ApiReq::Begin { name: 1, node })?;
    begin_put(alloc, world)?;
    // The coordinator takes that, and asks for the row.
    take_first(alloc, world)?;
    Ok(fail(alloc, world, failing)?)
}

// It goes on, is to commit, and three rounds pass.
fn end_work<W: Wait>(rt: &W, alloc: Global, world: &mut World) -> Result<(), NoMemory>
    requires { IsWorld (whole_of world.old) }
    ensures { OnOk result (IsWorld (whole_of world.new)) }
{
    drive(rt, alloc, world)?;
    ask(rt, alloc, world, ApiReq::Commit { name: 1 })?;
    ask(rt, alloc, world, ApiReq::Tick { round: 1, of: 3 })?;
    ask(rt, alloc, world, ApiReq::Tick { round: 2, of: 3 })?;
    ask(rt, alloc, world, ApiReq::Tick { round: 3, of: 3 })?;
    ask(rt, alloc, world, ApiReq::Micro)
}

fn live<W: Wait>(rt: &W, alloc: Global, world: &mut World, failing: Failing) -> Result<(), RunFault>
    requires { IsWorld (whole_of world.old) }
{
    begin_work(rt, alloc, world, failing)?;
    end_work(rt, alloc, world)?;
    Ok(())
}

fn live_alone<W: Wait>(rt: &W, alloc: Global, world: &mut World) -> Result<(), RunFault>
    requires { IsWorld (whole_of world.old) }
{
    put_alone(rt, alloc, world)?;
    Ok(ask(rt, alloc, world, ApiReq::Rows { node: 1 })?)
}

// The trace of a life; no bytes where it has none.
fn told(alloc: Global, shape: Shape, life: &Life) -> Result<Seq<u8>, NoMemory> {
    match write_trace(alloc, shape, life) {
        Ok(bytes) => Ok(bytes),
        Err(WriteFault::NoMemory) => Err(NoMemory),
        Err(_) => Ok(Seq::new(alloc)),
    }
}

/// The trace of a life of two nodes in which that fails while a transaction is open.
///
/// # Errors
/// Want of memory.
pub fn trace_of_pair<W: Wait>(
    rt: &W,
    alloc: Global,
    failing: Failing,
) -> Result<Seq<u8>, RunFault> {
    let mut world = fresh(alloc, PAIR)?;
    let lived = live(rt, alloc, &mut world, failing);
    // Ended either way: what a world is made of is then dropped in its own crate.
    let life = world.end_life(alloc);
    lived?;
    Ok(told(alloc, PAIR, &life)?)
}

/// The trace of a life of one node, which puts a row and shows it.
///
/// # Errors
/// Want of memory.
pub fn trace_alone<W: Wait>(rt: &W, alloc: Global) -> Result<Seq<u8>, RunFault> {
    let mut world = fresh(alloc, ALONE)?;
    let lived = live_alone(rt, alloc, &mut world);
    let life = world.end_life(alloc);
    lived?;
    Ok(told(alloc, ALONE, &life)?)
}
