//! Lives of which each call of a disk fails in turn.
ghost use Rattle.frag_map.specs.Shape.{IsShape};
ghost use Rattle.world_views.specs.Driven.{IsWorld};
ghost use Rattle.world_views.specs.WorldOf.{whole_of};

use crate::begin::{begin, begin_behind};
use crate::disks::{Fuse, Leaves, fused_disks, has_failed};
use crate::fault::RunFault;
use crate::lives::{live_in, next_life};
use crate::shapes::drawn;
use crate::tally::Tally;
use crate::told::Told;
use crate::trial::Trial;
use disk_world::Ended;
use sig_core::Key;
use std::alloc::Global;
use std::sync::Wait;

/// How many fuses burnt, and the greatest number of a call with which none did.
#[derive(Clone, Copy)]
struct Burnt {
    fuses: u64,
    calls: u64,
}

/// Has a cluster live twice on the same disks and restart behind each life, again and again, and judges all that. Each
/// time another call fails: of each node's disk, and of all disks, each by its number; alone, or with all behind it
/// until power is cut. Each is done over disks of which cuts of power leave nothing that isn't synced, all of it, or
/// every other place.
///
/// # Errors
/// The first law that is broken, why a life doesn't begin, or `NoMemory`.
pub fn run_one<W: Wait>(
    rt: &W,
    alloc: Global,
    seed: u64,
    fails: u64,
    keys: &[Key],
    tally: &mut Tally,
) -> Result<Told, RunFault> {
    let (_, shape) = drawn(seed);
    let trial = Trial {
        shape,
        fails,
        brief: true,
        // Each disk may have a try fail, and then the next one has to go well.
        tries: u64::from(shape.nodes) + 1,
        keys,
    };
    burn_all(rt, alloc, seed, &trial, tally)
}

fn burn_all<W: Wait>(
    rt: &W,
    alloc: Global,
    seed: u64,
    trial: &Trial,
    tally: &mut Tally,
) -> Result<Told, RunFault>
    requires { IsShape trial.now.shape }
{
    let nodes = trial.shape.nodes;
    let mut burnt = Burnt { fuses: 0, calls: 0 };
    // Of one node alone all disks are its own.
    let least = if nodes == 1 { 1 } else { 0 };
    for node in least..=nodes {
        for leaves in [Leaves::Nothing, Leaves::All, Leaves::EveryOther] {
            for once in [false, true] {
                let fuse = Fuse {
                    node,
                    call: 0,
                    once,
                    leaves,
                };
                burn_each(rt, alloc, seed, trial, fuse, tally, &mut burnt)?;
            }
        }
    }
    Ok(Told::Fused {
        nodes,
        fuses: burnt.fuses,
        calls: burnt.calls,
    })
}

// The number of the call rises until none fails.
fn burn_each<W: Wait>(
    rt: &W,
    alloc: Global,
    seed: u64,
    trial: &Trial,
    of: Fuse,
    tally: &mut Tally,
    burnt: &mut Burnt,
) -> Result<(), RunFault>
    requires { IsShape trial.now.shape }
{
    for call in 0..u64::MAX {
        if !burn(rt, alloc, seed, trial, Fuse { call, ..of }, tally)? {
            burnt.calls = burnt.calls.max(call);
            return Ok(());
        }
        burnt.fuses = burnt.fuses.saturating_add(1);
    }
    Ok(())
}

// Two lives, and a restart behind each. Says whether a call failed.
fn burn<W: Wait>(
    rt: &W,
    alloc: Global,
    seed: u64,
    trial: &Trial,
    fuse: Fuse,
    tally: &mut Tally,
) -> Result<bool, RunFault>
    requires { IsShape trial.now.shape }
{
    let (mut dice, _) = drawn(seed);
    let disks = fused_disks(alloc, fuse, trial.shape.nodes)?;
    let cluster = begin(alloc, disks, trial.shape, trial.tries, tally)?;
    let first = live_in(rt, alloc, &mut dice, trial, cluster, tally)?;
    let next = next_life(rt, alloc, &mut dice, trial, first.ended, tally)?;
    let Ended { life, disks } = next.ended;
    let last = begin_behind(alloc, disks, trial, &life, tally)?;
    let Ended { disks, .. } = last.end(alloc);
    Ok(has_failed(disks.as_slice()))
}
