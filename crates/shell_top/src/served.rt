//! Serving a command: the world is asked and driven to quiet, and its replies are printed.
ghost use Rattle.std.specs.Prelude.{◌≡◌, ◌≤◌, [], true, Some, IfOk, IfNone, OnOk, OnErr};
ghost use Rattle.host_io.specs.Fault.{Rose};
ghost use Rattle.shell_top.specs.Arranged.{arranged};
ghost use Rattle.shell_top.specs.Asked.{IsOfWords, MayAsk, is_served};
ghost use Rattle.shell_top.specs.declared.ended.Ending.TheVariants as ending;
ghost use Rattle.shell_top.specs.OnDisks.{LivesOn, UnlessWanting};
ghost use Rattle.shell_top.specs.Served.{AreLeft, PrintsCommand, ServesCommand};
ghost use Rattle.shell_top.specs.Subject.{subject_in};
ghost use Rattle.shell_top.specs.Text.{down_line, reply_lines};
ghost use Rattle.shell_top.specs.Seen.{HasGrown, seen_on};
ghost use Rattle.shell_top.specs.Setting.{setting_of};
ghost use Rattle.world_core.specs.Start.{Start};
ghost use Rattle.world_views.specs.Driven.{IsSound};
ghost use Rattle.world_views.specs.World.{is_down};
ghost use Rattle.world_views.specs.WorldOf.{whole_of};

use crate::arranged::{are_own, arranged};
use crate::asked::{ask_about, ask_own};
use crate::ended::Ending;
use crate::subject::{Subject, subject_of};
use crate::taken::take_replies;
use crate::writer::write_all;
use disk_world::DiskWorld;
use host_io::{Disk, Sink};
use script_lang::{Command, print_reply};
use sig_core::{ApiReply, NoMemory};
use std::alloc::Global;
use std::sync::Wait;

/// For how many bytes of text there is room at first. That of nearly all commands fits.
const TEXT: usize = 64;

/// The lines of replies.
fn lines(alloc: Global, replies: &[ApiReply]) -> Result<Vec<u8>, NoMemory>
    ensures { IfOk result (λ text. text.items ≡ reply_lines replies.now) }
{
    let mut text = Vec::with_capacity(alloc, TEXT)?;
    for reply in replies {
        print_reply(alloc, reply, &mut text)?;
    }
    Ok(text)
}

/// The lines of the replies to a command that is about this, in the order in which they are printed.
#[tactic(auto, using(crate::proofs::ArrangedLemmas::all_own))]
fn arranged_lines(alloc: Global, asked: Subject, replies: &[ApiReply]) -> Result<Vec<u8>, NoMemory>
    ensures { IfOk result (λ text. text.items ≡ reply_lines (arranged asked replies.now)) }
{
    // Most often all are the command's own, and there is nothing to arrange.
    if are_own(asked, replies) {
        return lines(alloc, replies);
    }
    lines(alloc, &arranged(alloc, asked, replies)?)
}

/// The lines of all replies of the world to a command.
///
/// # Errors
/// `NoMemory`, and then some replies may be lost.
fn answers<D: Disk>(
    alloc: Global,
    world: &mut DiskWorld<D>,
    command: &Command,
) -> Result<Vec<u8>, NoMemory>
    ghost start: { Start }
    requires { IsSound start (whole_of world.old.world) }
    ensures told { OnOk result (whole_of world.new.world ≡ record (whole_of world.old.world) { replies = [] }) }
    ensures text { IfOk result (λ text. text.items ≡ reply_lines (arranged (subject_in command.now) (whole_of world.old.world).replies)) }
    ensures err { OnErr result ((whole_of world.new.world).logs ≡ (whole_of world.old.world).logs) }
    ensures setting { setting_of world.new ≡ setting_of world.old }
    ensures grown { HasGrown (seen_on D.told D.faults world.old.disks.items) (seen_on D.told D.faults world.new.disks.items) }
    ensures lived { OnOk result (LivesOn start D.told world.old world.new) }
{
    let replies = take_replies(alloc, world)?;
    arranged_lines(alloc, subject_of(command), &replies)
}

/// Has the world serve a command, and gives the text of the replies to it.
///
/// # Errors
/// `NoMemory`, and then the world is of use for its logs alone.
fn serve<R: Wait, D: Disk>(
    rt: &R,
    alloc: Global,
    world: &mut DiskWorld<D>,
    command: &Command,
) -> Result<Vec<u8>, NoMemory>
    ghost start: { Start }
    requires opened { IsSound start (whole_of world.old.world) }
    requires served { is_served command.now ≡ true }
    requires may { MayAsk command.now (is_down (whole_of world.old.world)) }
    requires words { IsOfWords command.now }
    ensures ok { IfOk result (λ text. ServesCommand start command.now (whole_of world.old.world) (whole_of world.new.world) text.items) }
    ensures err { OnErr result (AreLeft start command.now (whole_of world.old.world) (whole_of world.new.world).logs) }
    ensures setting { setting_of world.new ≡ setting_of world.old }
    ensures grown { HasGrown (seen_on D.told D.faults world.old.disks.items) (seen_on D.told D.faults world.new.disks.items) }
    ensures lived { OnOk result (LivesOn start D.told world.old world.new) }
{
    let was_down = world.is_down();
    ask_own(rt, alloc, world, command)?;
    ask_about(rt, alloc, world)?;
    let mut text = answers(alloc, world, command)?;
    text.extend_from_slice(down_line(was_down, world.is_down()))?;
    Ok(text)
}

/// The line that tells that the cluster is down now, where it wasn't before; or nothing.
fn down_line(before: bool, now: bool) -> &'static [u8]
    ensures { result.now ≡ down_line before now }
{
    if now && !before { b"down\n" } else { b"" }
}

/// Has the world serve a command, and prints the replies to it. Says why the session ends, if it
/// does.
#[tactic(auto, using(crate::proofs::ServedLemmas::prints))]
pub fn serve_command<R: Wait, D: Disk, K: Sink>(
    rt: &R,
    alloc: Global,
    world: &mut DiskWorld<D>,
    sink: &mut K,
    command: &Command,
) -> Option<Ending>
    ghost start: { Start }
    requires opened { IsSound start (whole_of world.old.world) }
    requires served { is_served command.now ≡ true }
    requires may { MayAsk command.now (is_down (whole_of world.old.world)) }
    requires words { IsOfWords command.now }
    ensures printed { PrintsCommand start command.now (whole_of world.old.world) (whole_of world.new.world) result (K.written sink.old) (K.written sink.new) }
    ensures opened { IfNone result (IsSound start (whole_of world.new.world)) }
    ensures unread { result ≡ Some ending.ReadFault → ⊥ }
    ensures cause { result ≡ Some ending.WriteFault → Rose (K.faults sink.old) (K.faults sink.new) }
    ensures steady { K.faults sink.old ≤ K.faults sink.new }
    ensures setting { setting_of world.new ≡ setting_of world.old }
    ensures grown { HasGrown (seen_on D.told D.faults world.old.disks.items) (seen_on D.told D.faults world.new.disks.items) }
    ensures lived { UnlessWanting result (LivesOn start D.told world.old world.new) }
{
    let text = match serve(rt, alloc, world, command) {
        Ok(text) => text,
        Err(NoMemory) => return Some(Ending::NoMemory),
    };
    match write_all(sink, &text) {
        Ok(()) => None,
        Err(_) => Some(Ending::WriteFault),
    }
}
