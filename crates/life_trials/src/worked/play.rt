//! Making a run.
ghost use Rattle.std.specs.Prelude.{OnOk};
ghost use Rattle.frag_map.specs.Shape.{IsShape};
ghost use Rattle.world_views.specs.Driven.{IsWorld};
ghost use Rattle.world_views.specs.WorldOf.{whole_of};

use crate::cluster::{Cluster, drive};
use crate::worked::cluster::{ask_for, pick_all, serve, take_some, tell_replies};
use crate::worked::disks::{change, cut_all, fresh_disks};
use crate::worked::line::{Line, Signals};
use crate::worked::run::{SHAPE, behind, life_of, lines_down, lines_up, lives_in, shape_of};
use crate::worked::telling::{tell_calls, tell_fault, tell_flip, tell_life};
use crate::worked::trace::tell_log;
use disk_world::{DiskWorld, Ended, Unopened};
use host_io::MemDisk;
use script_lang::print_reply;
use sig_core::{ApiReply, NoMemory, Shape};
use std::alloc::Global;
use std::sync::Wait;

/// Plays the lines of a run at this point, life after life, and adds what comes of it to a text.
///
/// # Errors
/// `NoMemory`.
pub fn play<W: Wait>(
    rt: &W,
    alloc: Global,
    lines: &[Line],
    point: u32,
    text: &mut Vec<u8>,
) -> Result<(), NoMemory> {
    let mut shape = shape_of(lines, SHAPE);
    let mut disks = fresh_disks(alloc, lines, shape.nodes)?;
    let mut rest = lines;
    for _ in 0..lives_in(lines) {
        let part = life_of(rest);
        shape = shape_of(part, shape);
        disks = play_life(rt, alloc, disks, shape, part, point, text)?;
        rest = behind(rest, part.len());
    }
    Ok(())
}

// A life begins on these disks, and its lines are played, also those while the cluster is down. Gives the disks.
fn play_life<W: Wait>(
    rt: &W,
    alloc: Global,
    disks: Vec<MemDisk>,
    shape: Shape,
    lines: &[Line],
    point: u32,
    text: &mut Vec<u8>,
) -> Result<Vec<MemDisk>, NoMemory>
    requires { IsShape shape }
{
    if disks.len() != usize::from(shape.nodes) {
        return Ok(disks);
    }
    match DiskWorld::open(alloc, disks, shape) {
        Ok(world) => live_in(rt, alloc, world, lines, point, text),
        Err(unopened) => stay_down(alloc, unopened, lines, text),
    }
}

fn live_in<W: Wait>(
    rt: &W,
    alloc: Global,
    world: Cluster,
    lines: &[Line],
    point: u32,
    text: &mut Vec<u8>,
) -> Result<Vec<MemDisk>, NoMemory>
    requires { IsWorld (whole_of world.world) }
{
    let mut world = world;
    let played = play_lines(rt, alloc, &mut world, lines_up(lines), point, text);
    // Ended either way: what a world is made of is then dropped in its own crate.
    let Ended { life, mut disks } = world.end(alloc);
    played?;
    for line in lines {
        tell_log(alloc, &life, line, text)?;
    }
    tell_down(alloc, &mut disks, lines_down(lines), text)?;
    Ok(disks)
}

// No life begins, and it is told why.
fn stay_down(
    alloc: Global,
    unopened: Unopened<MemDisk>,
    lines: &[Line],
    text: &mut Vec<u8>,
) -> Result<Vec<MemDisk>, NoMemory> {
    let Unopened { fault, mut disks } = unopened;
    tell_fault(alloc, &fault, text)?;
    tell_down(alloc, &mut disks, lines, text)?;
    Ok(disks)
}

// Plays lines of a life.
fn play_lines<W: Wait>(
    rt: &W,
    alloc: Global,
    world: &mut Cluster,
    lines: &[Line],
    point: u32,
    text: &mut Vec<u8>,
) -> Result<(), NoMemory>
    requires { IsWorld (whole_of world.old.world) }
    ensures { OnOk result (IsWorld (whole_of world.new.world)) }
{
    if world.generation() > 1 {
        let epoch = world.start_epoch();
        print_reply(alloc, &ApiReply::Restarted { epoch }, text)?;
    }
    for line in lines {
        let was_down = world.is_down();
        play_line(rt, alloc, world, line, point, text)?;
        tell_replies(alloc, world, text)?;
        if world.is_down() && !was_down {
            text.extend_from_slice(b"down\n")?;
        }
    }
    Ok(())
}

fn play_line<W: Wait>(
    rt: &W,
    alloc: Global,
    world: &mut Cluster,
    line: &Line,
    point: u32,
    text: &mut Vec<u8>,
) -> Result<(), NoMemory>
    requires { IsWorld (whole_of world.old.world) }
    ensures { OnOk result (IsWorld (whole_of world.new.world)) }
{
    match line {
        Line::Ask(command) => ask_for(alloc, world, command),
        Line::Serve(command) => serve(rt, alloc, world, command),
        Line::Pick { pick, times } => pick_all(alloc, world, *pick, *times, text),
        Line::Drive(Signals::All) => drive(rt, alloc, world),
        Line::Drive(Signals::Point) => take_some(alloc, world, point),
        Line::Drive(Signals::Number(signals)) => take_some(alloc, world, *signals),
        Line::Calls(node) => tell_calls(alloc, world.disks(), *node, text),
        Line::Life => tell_life(alloc, world, text),
        _ => Ok(()),
    }
}

// Plays lines while the cluster is down.
fn tell_down(
    alloc: Global,
    disks: &mut [MemDisk],
    lines: &[Line],
    text: &mut Vec<u8>,
) -> Result<(), NoMemory> {
    for line in lines {
        match line {
            Line::Crash => {
                cut_all(disks);
                print_reply(alloc, &ApiReply::Crashed, text)?;
            }
            Line::Ask(_) | Line::Serve(_) => text.extend_from_slice(b"down\n")?,
            Line::Calls(node) => tell_calls(alloc, disks, *node, text)?,
            Line::Flip(byte) => tell_flip(alloc, change(disks, byte), byte, text)?,
            _ => {}
        }
    }
    Ok(())
}
