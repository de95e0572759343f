//! The cluster of a life: what is asked of it, and what happens to it.
ghost use Rattle.std.specs.Prelude.{◌≡◌, OnOk};
ghost use Rattle.world_views.specs.Driven.{IsWorld};
ghost use Rattle.world_views.specs.WorldOf.{whole_of};

use crate::cluster::{Cluster, ask, ask_about, drive, next_reply, take_first};
use script_lang::{Command, print_reply};
use sig_core::{ApiReq, NoMemory};
use std::alloc::Global;
use std::sync::Wait;
use trial_requests::{request_of, requests};
use world_views::{Pick, ScheduleFault};

// Asks the shell for the request of a command at this place.
fn ask_at(alloc: Global, world: &mut Cluster, command: &Command, at: u8) -> Result<(), NoMemory>
    requires { IsWorld (whole_of world.old.world) }
    ensures { OnOk result (IsWorld (whole_of world.new.world)) }
{
    match request_of(alloc, command, at)? {
        Some(request) => ask(alloc, world, request),
        None => Ok(()),
    }
}

/// Asks the shell for all that a command asks for.
///
/// # Errors
/// `NoMemory`.
pub fn ask_for(alloc: Global, world: &mut Cluster, command: &Command) -> Result<(), NoMemory>
    requires { IsWorld (whole_of world.old.world) }
    ensures { OnOk result (IsWorld (whole_of world.new.world)) }
{
    for at in 0..requests(command) {
        ask_at(alloc, world, command, at)?;
    }
    Ok(())
}

/// The same, with signals taken to quiet behind each request; what the command leaves unanswered is
/// asked about.
///
/// # Errors
/// `NoMemory`.
pub fn serve<W: Wait>(
    rt: &W,
    alloc: Global,
    world: &mut Cluster,
    command: &Command,
) -> Result<(), NoMemory>
    requires { IsWorld (whole_of world.old.world) }
    ensures { OnOk result (IsWorld (whole_of world.new.world)) }
{
    for at in 0..requests(command) {
        ask_at(alloc, world, command, at)?;
        drive(rt, alloc, world)?;
    }
    ask_about(rt, alloc, world)
}

/// Makes a pick so many times. Adds to a text that one can't be made, and then makes no more.
///
/// # Errors
/// `NoMemory`.
pub fn pick_all(
    alloc: Global,
    world: &mut Cluster,
    picked: Pick,
    times: u32,
    text: &mut Vec<u8>,
) -> Result<(), NoMemory>
    requires { IsWorld (whole_of world.old.world) }
    ensures { OnOk result (IsWorld (whole_of world.new.world)) }
{
    for _ in 0..times {
        if let Some(why) = pick(alloc, world, picked)? {
            text.extend_from_slice(why.as_bytes())?;
            return Ok(());
        }
    }
    Ok(())
}

// Makes a pick, and says why it can't be made.
fn pick(alloc: Global, world: &mut Cluster, pick: Pick) -> Result<Option<&'static str>, NoMemory>
    requires { IsWorld (whole_of world.old.world) }
    ensures { OnOk result (IsWorld (whole_of world.new.world)) }
{
    match world.pick(alloc, pick) {
        Ok(()) => Ok(None),
        Err(ScheduleFault::NoMemory) => Err(NoMemory),
        Err(ScheduleFault::Empty { .. }) => Ok(Some("empty\n")),
        Err(ScheduleFault::Gone { .. }) => Ok(Some("gone\n")),
    }
}

/// Takes so many signals in the order of driving, or as many as there are.
///
/// # Errors
/// `NoMemory`.
pub fn take_some(alloc: Global, world: &mut Cluster, signals: u32) -> Result<(), NoMemory>
    requires { IsWorld (whole_of world.old.world) }
    ensures { OnOk result (IsWorld (whole_of world.new.world)) }
{
    for _ in 0..signals {
        if !take_first(alloc, world)? {
            return Ok(());
        }
    }
    Ok(())
}

/// Adds the lines of all replies to a text.
///
/// # Errors
/// `NoMemory`.
pub fn tell_replies(alloc: Global, world: &mut Cluster, text: &mut Vec<u8>) -> Result<(), NoMemory>
    requires { IsWorld (whole_of world.old.world) }
    ensures { OnOk result (IsWorld (whole_of world.new.world)) }
{
    for _ in 0..u64::MAX {
        match next_reply(world) {
            Some(reply) => print_reply(alloc, &reply, text)?,
            None => return Ok(()),
        }
    }
    Ok(())
}
