//! What is asked of a cluster in a life.
ghost use Rattle.std.specs.Prelude.{◌<◌, OnOk};
ghost use Rattle.frag_map.specs.Shape.{IsShape};
ghost use Rattle.world_views.specs.Driven.{IsWorld};
ghost use Rattle.world_views.specs.WorldOf.{whole_of};

use crate::chance::go_on;
use crate::cluster::{Cluster, ask, hear, settle};
use crate::fault::RunFault;
use life_judge::Dice;
use sig_core::{ApiReq, Shape};
use std::alloc::Global;
use std::sync::Wait;
use trial_requests::draw_request;

/// For how many requests failures go on, at most, once they have begun: a takeover takes about four.
const UNREST: u64 = 6;
/// Of a hundred requests amid failures so many fail something, and hosts fail in proportion.
const FAILING: u64 = 30;

/// How a life goes.
#[derive(Clone, Copy)]
pub struct Pace {
    pub requests: u64,
    /// Whether checkpoints are often asked for, global and local ones.
    pub saves: bool,
    /// At so many of a hundred requests failures begin.
    pub fails: u64,
}

/// The requests of a life, with signals taken between them. It ends amid them. Failures come together, so that one
/// meets what another one left to do, and seldom, so that much is done in the views that follow. Tells how many local
/// checkpoints were reported.
///
/// # Errors
/// `NoMemory`, or that a key or value that was drawn is none.
pub fn live<W: Wait>(
    rt: &W,
    alloc: Global,
    dice: &mut Dice,
    cluster: &mut Cluster,
    shape: &Shape,
    pace: Pace,
) -> Result<u64, RunFault>
    requires cluster { IsWorld (whole_of cluster.old.world) }
    requires shape { IsShape shape.now }
    ensures { OnOk result (IsWorld (whole_of cluster.new.world)) }
{
    let mut unrest = 0u64;
    let mut checkpoints = 0u64;
    for count in 0..pace.requests {
        if dice.roll(100) < pace.fails {
            unrest = 1 + dice.roll(UNREST);
        }
        let failing = if unrest > 0 { FAILING } else { 0 };
        unrest = unrest.saturating_sub(1);
        let request = draw(alloc, dice, shape, count, failing, pace.saves)?;
        ask(alloc, cluster, request)?;
        go_on(alloc, dice, cluster, shape, failing)?;
        if dice.roll(turns(pace.saves)) == 0 {
            settle(rt, alloc, cluster)?;
        }
        checkpoints = checkpoints.saturating_add(hear(cluster));
    }
    Ok(checkpoints)
}

// After one of so many requests all is settled.
fn turns(saves: bool) -> u64
    ensures { 0 < result }
{
    if saves { 4 } else { 6 }
}

// A request, often for a checkpoint where it saves.
fn draw(
    alloc: Global,
    dice: &mut Dice,
    shape: &Shape,
    count: u64,
    fails: u64,
    saves: bool,
) -> Result<ApiReq, RunFault>
    requires { IsShape shape.now }
{
    if saves && dice.roll(8) == 0 {
        return Ok(ApiReq::Gcp);
    }
    if saves && dice.roll(6) == 0 {
        return Ok(ApiReq::Lcp);
    }
    Ok(draw_request(alloc, dice, shape, count, fails)?)
}
