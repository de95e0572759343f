//! A trace is checked against the machine.
ghost use Rattle.std.specs.Prelude.{◌≡◌, ◌+◌, ◌*◌, ◌/◌, ◌<◌, IfErr, IfOk};
ghost use Rattle.frag_map.specs.Shape.{IsShape};
ghost use Rattle.trace_bytes.specs.Lives.{LAST_START, trace_of};
ghost use Rattle.trace_check.specs.Answer.{AreMade, IsBecause, IsFaultAt, IsHistoryOf, IsUnwanted};
ghost use Rattle.trace_check.specs.RightLife.{IsRightLife, IsTold};
ghost use Rattle.world_views.specs.Lives.{start_of};

use crate::compare::{first_fault, have_wanted, is_trace_of};
use crate::fault::{StepFault, TraceFault};
use crate::history::history_of;
use crate::labels::are_labelled;
use crate::play::play_all;
use gcp_master::MICROS;
use sig_core::{Entry, HostLog, Life, NoMemory, Seq, Shape};
use std::alloc::Global;
use trace_merge::{Run, merge};
use trace_read::read_trace;
use world_views::World;

/// A life that the machine allows, with the shape of its cluster and its history.
#[derive(Drop)]
pub struct Checked {
    pub shape: Shape,
    pub life: Life,
    /// The transactions that were decided and took effect, in their order.
    pub history: Seq<Entry>,
}

/// The shape and the life that these bytes are the trace of, where the machine allows that life: a world that does what
/// its steps say, in the order of stamps and hosts, makes just these logs. And the history of its logs.
///
/// # Errors
/// `NotTrace` exactly where the bytes are the trace of no life; `NotHosts` where they are that of one whose
/// logs aren't one for each host; `NotStep` at the first step that such a world doesn't make, and where no host of
/// these logs stops they are then no run of the machine. `NoMemory`. A life in which a host stops may be refused
/// though the machine allows it: no trace tells what a stop loses of each link, so none is taken to be lost, and one
/// where a disk failed.
pub fn check(alloc: Global, bytes: &[u8]) -> Result<Checked, TraceFault>
    ensures told { IfOk result (λ found. bytes.now ≡ trace_of found.shape found.life) }
    ensures right { IfOk result (λ found. IsRightLife found.shape found.life) }
    ensures history { IfOk result (λ found. IsHistoryOf found.shape found.life found.history) }
    ensures err { IfErr result (λ fault. IsBecause bytes.now fault) }
{
    let (shape, life) = checked_life(alloc, bytes)?;
    let logs = life.logs.as_slice();
    let history = history_of(alloc, shape, logs)?;
    Ok(Checked {
        shape,
        life,
        history,
    })
}

// The shape and the life.
#[tactic(auto, using(crate::proofs::AnswerLemmas::other_hosts))]
fn checked_life(alloc: Global, bytes: &[u8]) -> Result<(Shape, Life), TraceFault>
    ensures told { IfOk result (λ found. bytes.now ≡ trace_of found.0 found.1) }
    ensures right { IfOk result (λ found. IsRightLife found.0 found.1) }
    ensures err { IfErr result (λ fault. IsBecause bytes.now fault) }
{
    let (shape, life) = read(alloc, bytes)?;
    let logs = life.logs.as_slice();
    if !are_labelled(&shape, logs) {
        return Err(TraceFault::NotHosts);
    }
    replay(alloc, bytes, shape, life)
}

// The life that a trace tells.
#[tactic(auto, using(crate::proofs::AnswerLemmas::told_life, crate::proofs::AnswerLemmas::no_trace))]
fn read(alloc: Global, bytes: &[u8]) -> Result<(Shape, Life), TraceFault>
    ensures ok { IfOk result (λ found. IsTold bytes.now found.0 found.1) }
    ensures err { IfErr result (λ fault. IsBecause bytes.now fault) }
{
    match read_trace(alloc, bytes) {
        Ok(found) => Ok(found),
        Err(trace_read::TraceFault::NotTrace { at }) => Err(TraceFault::NotTrace { at }),
        Err(trace_read::TraceFault::NoMemory) => Err(TraceFault::NoMemory),
    }
}

// A life that a trace tells, made anew.
fn replay(
    alloc: Global,
    bytes: &[u8],
    shape: Shape,
    life: Life,
) -> Result<(Shape, Life), TraceFault>
    requires { IsTold bytes.now shape life }
    ensures told { IfOk result (λ found. bytes.now ≡ trace_of found.0 found.1) }
    ensures right { IfOk result (λ found. IsRightLife found.0 found.1) }
    ensures err { IfErr result (λ fault. IsBecause bytes.now fault) }
{
    let all = life.logs.as_slice();
    let run = merge(alloc, all)?;
    let (logs, why) = made(alloc, shape, &life, &run)?;
    let Life {
        start_epoch,
        start_rows,
        logs: told,
        slots,
    } = life;
    let again = Life {
        start_epoch,
        start_rows,
        logs,
        slots,
    };
    let those = told.as_slice();
    compared(alloc, bytes, shape, again, those, &run, why)
}

// The logs of a world that begins as a life did and does what these steps of it say, and why it can't do the first one
// that it can't do.
fn made(
    alloc: Global,
    shape: Shape,
    life: &Life,
    run: &Run,
) -> Result<(Seq<HostLog>, Option<StepFault>), NoMemory>
    requires shape { IsShape shape }
    requires starts { life.now.start_epoch < LAST_START }
    ensures { IfOk result (λ made. AreMade (start_of shape life.now) life.now.logs run.now made.0 made.1) }
{
    let epoch = first_epoch(life.start_epoch);
    let rows = life.start_rows.as_slice();
    let told = life.logs.as_slice();
    let places = run.as_slice();
    let mut world = World::new(alloc, shape, epoch, life.start_epoch, rows)?;
    let played = play_all(alloc, &mut world, told, places);
    // Ended either way: what a world is made of is then dropped in its own crate.
    let again = world.end_life(alloc);
    let why = played?;
    Ok((again.logs, why))
}

// The first epoch of a life: the first of the checkpoint number behind that of its start epoch.
fn first_epoch(start_epoch: u64) -> u64
    requires { start_epoch < LAST_START }
    ensures { result ≡ (start_epoch / MICROS + 1) * MICROS }
{
    (start_epoch / MICROS + 1) * MICROS
}

// The life that was made, where these bytes are its trace; else where it isn't the one that was told.
#[tactic(auto, using(crate::proofs::AnswerLemmas::unwanted_is))]
fn compared(
    alloc: Global,
    bytes: &[u8],
    shape: Shape,
    life: Life,
    told: &[HostLog],
    run: &Run,
    why: Option<StepFault>,
) -> Result<(Shape, Life), TraceFault>
    ensures told { IfOk result (λ found. bytes.now ≡ trace_of found.0 found.1) }
    ensures made { IfOk result (λ found. (found.0 ≡ shape) × (found.1 ≡ life)) }
    ensures err { IfErr result (λ fault. IsFaultAt told.now life.logs run.now why fault) }
    ensures unwanted { IfErr result (λ fault. IsUnwanted life.logs fault) }
{
    if is_trace_of(alloc, bytes, shape, &life)? {
        return Ok((shape, life));
    }
    let logs = life.logs.as_slice();
    if have_wanted(logs) {
        return Err(TraceFault::NoMemory);
    }
    Err(first_fault(alloc, told, logs, run.as_slice(), why)?)
}
