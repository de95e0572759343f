//! A cluster on disks, life after life.
ghost use Rattle.std.specs.Prelude.{◌≡◌, ◌≤◌, [], false, true, None, Some, IfNone, IfOk, IfSome, length};
ghost use Rattle.host_io.specs.Fault.{Rose};
ghost use Rattle.script_lang.specs.declared.command.Command.TheVariants as commands;
ghost use Rattle.script_lang.specs.ReplyText.{reply_text};
ghost use Rattle.sig_core.specs.declared.reply.ApiReply.TheVariants.{Restarted};
ghost use Rattle.shell_top.specs.Asked.{IsOfWords, is_asked_for, is_served};
ghost use Rattle.shell_top.specs.declared.ended.Ending.TheVariants as ending;
ghost use Rattle.shell_top.specs.Seen.{HasGrown, HaveLost, seen_on};
ghost use Rattle.shell_top.specs.Lives.{AreKept, HasBegun, HaveLostPower, IsGoing, IsLineTold, IsUnopened, Obeys};
ghost use Rattle.shell_top.specs.Lives.{all_lives, disks_of, is_up, now_of, start_in};
ghost use Rattle.world_core.specs.Start.{Start};

use crate::ended::Ending;
use crate::served::serve_command;
use crate::writer::write_all;
use disk_world::DiskWorld;
use host_io::{Disk, Sink};
use script_lang::{Command, print_reply};
use sig_core::{ApiReply, Life, NoMemory, Shape};
use std::alloc::Global;
use std::mem;
use std::sync::Wait;

/// A cluster on disks: the life that goes on, if one does, and those that ended.
#[derive(Drop)]
pub struct Lives<D: Disk> {
    shape: Shape,
    /// Those that ended, the first one first. There is room for the one that goes on.
    ended: Vec<Life>,
    /// The life that goes on.
    world: Option<DiskWorld<D>>,
    /// Where none does, the disks.
    disks: Vec<D>,
}

impl<D: Disk> Lives<D> {
    /// Before the first life of a cluster of this shape, on the first of these disks.
    pub fn new(alloc: Global, shape: Shape, disks: Vec<D>) -> Lives<D>
        ensures shape { result.shape ≡ shape }
        ensures none { result.ended.items ≡ [] }
        ensures unopened { result.world ≡ None }
        ensures disks { result.disks ≡ disks }
    {
        Lives {
            shape,
            ended: Vec::new(alloc),
            world: None,
            disks,
        }
    }

    /// How many nodes the cluster has.
    pub fn nodes(&self) -> u8
        ensures { result ≡ self.now.shape.nodes }
    {
        self.shape.nodes
    }

    /// Begins the next life, where none goes on, and makes the room for it among those that ended. Says
    /// how the session ends where it doesn't begin.
    pub fn open(&mut self, alloc: Global) -> Option<Ending>
        requires kept { AreKept self.old }
        requires unopened { self.old.world ≡ None }
        ensures shape { self.new.shape ≡ self.old.shape }
        ensures ended { self.new.ended.items ≡ self.old.ended.items }
        ensures begun { IfNone result (HasBegun self.old.shape (seen_on D.told D.faults (disks_of self.old)) (seen_on D.told D.faults (disks_of self.new)) (now_of self.new)) }
        ensures going { IfNone result (IsGoing (now_of self.new)) }
        ensures refused { IfSome result (λ e. IsUnopened self.old.shape (seen_on D.told D.faults (disks_of self.old)) (seen_on D.told D.faults (disks_of self.new)) (now_of self.new) e) }
        ensures grown { HasGrown (seen_on D.told D.faults (disks_of self.old)) (seen_on D.told D.faults (disks_of self.new)) }
        ensures kept { AreKept self.new }
    {
        if self.ended.reserve(1).is_err() {
            return Some(Ending::NoMemory);
        }
        let disks = mem::replace(&mut self.disks, Vec::new(alloc));
        match DiskWorld::open(alloc, disks, self.shape) {
            Ok(world) => {
                self.world = Some(world);
                None
            }
            Err(unopened) => {
                self.disks = unopened.disks;
                Some(Ending::from(unopened.fault))
            }
        }
    }

    /// Does what a command asks for, and prints what comes of it. Says why the session ends, if it does.
    pub fn obey<R: Wait, K: Sink>(
        &mut self,
        rt: &R,
        alloc: Global,
        sink: &mut K,
        command: &Command,
    ) -> Option<Ending>
        requires kept { AreKept self.old }
        requires going { IsGoing (now_of self.old) }
        requires asked { is_asked_for command.now ≡ true }
        requires words { IsOfWords command.now }
        ensures shape { self.new.shape ≡ self.old.shape }
        ensures obeyed { Obeys self.old.shape command.now (seen_on D.told D.faults (disks_of self.old)) (seen_on D.told D.faults (disks_of self.new)) self.old.ended.items self.new.ended.items (now_of self.old) (now_of self.new) (K.written sink.old) (K.written sink.new) result }
        ensures kept { AreKept self.new }
        ensures going { IfNone result (IsGoing (now_of self.new)) }
        ensures unread { result ≡ Some ending.ReadFault → ⊥ }
        ensures cause { result ≡ Some ending.WriteFault → Rose (K.faults sink.old) (K.faults sink.new) }
        ensures steady { K.faults sink.old ≤ K.faults sink.new }
    {
        match command {
            Command::Crash => self.crash(alloc, sink),
            Command::Restart => self.restart(rt, alloc, sink),
            _ => self.serve(rt, alloc, sink, command),
        }
    }

    /// Whether a life goes on in which the cluster isn't down.
    fn is_up(&self) -> bool
        requires { IsGoing (now_of self.now) }
        ensures { result ≡ is_up (now_of self.now) }
    {
        match &self.world {
            Some(world) => !world.is_down(),
            None => false,
        }
    }

    /// The life that goes on serves a command. Where none does, the cluster is down.
    fn serve<R: Wait, K: Sink>(
        &mut self,
        rt: &R,
        alloc: Global,
        sink: &mut K,
        command: &Command,
    ) -> Option<Ending>
        ghost start: { Start }
        requires begun { start ≡ start_in self.old.shape (now_of self.old) }
        requires kept { AreKept self.old }
        requires going { IsGoing (now_of self.old) }
        requires served { is_served command.now ≡ true }
        requires may { command.now ≡ commands.Restart → is_up (now_of self.old) ≡ true }
        requires words { IsOfWords command.now }
        ensures shape { self.new.shape ≡ self.old.shape }
        ensures obeyed { Obeys self.old.shape command.now (seen_on D.told D.faults (disks_of self.old)) (seen_on D.told D.faults (disks_of self.new)) self.old.ended.items self.new.ended.items (now_of self.old) (now_of self.new) (K.written sink.old) (K.written sink.new) result }
        ensures kept { AreKept self.new }
        ensures going { IfNone result (IsGoing (now_of self.new)) }
        ensures unread { result ≡ Some ending.ReadFault → ⊥ }
        ensures cause { result ≡ Some ending.WriteFault → Rose (K.faults sink.old) (K.faults sink.new) }
        ensures steady { K.faults sink.old ≤ K.faults sink.new }
    {
        match &mut self.world {
            Some(world) => serve_command(rt, alloc, world, sink, command),
            None => tell(sink, b"down\n"),
        }
    }

    /// Ends the life that goes on by a loss of power. Where none does, the cluster is down.
    fn crash<K: Sink>(&mut self, alloc: Global, sink: &mut K) -> Option<Ending>
        requires kept { AreKept self.old }
        requires going { IsGoing (now_of self.old) }
        ensures shape { self.new.shape ≡ self.old.shape }
        ensures obeyed { Obeys self.old.shape commands.Crash (seen_on D.told D.faults (disks_of self.old)) (seen_on D.told D.faults (disks_of self.new)) self.old.ended.items self.new.ended.items (now_of self.old) (now_of self.new) (K.written sink.old) (K.written sink.new) result }
        ensures kept { AreKept self.new }
        ensures going { IfNone result (IsGoing (now_of self.new)) }
        ensures unread { result ≡ Some ending.ReadFault → ⊥ }
        ensures cause { result ≡ Some ending.WriteFault → Rose (K.faults sink.old) (K.faults sink.new) }
        ensures steady { K.faults sink.old ≤ K.faults sink.new }
    {
        if self.world.is_none() {
            return tell(sink, b"down\n");
        }
        self.power_off(alloc);
        tell(sink, b"crashed\n")
    }

    /// Begins the next life where the cluster is down. Where it isn't, that is refused.
    fn restart<R: Wait, K: Sink>(&mut self, rt: &R, alloc: Global, sink: &mut K) -> Option<Ending>
        requires kept { AreKept self.old }
        requires going { IsGoing (now_of self.old) }
        ensures shape { self.new.shape ≡ self.old.shape }
        ensures obeyed { Obeys self.old.shape commands.Restart (seen_on D.told D.faults (disks_of self.old)) (seen_on D.told D.faults (disks_of self.new)) self.old.ended.items self.new.ended.items (now_of self.old) (now_of self.new) (K.written sink.old) (K.written sink.new) result }
        ensures kept { AreKept self.new }
        ensures going { IfNone result (IsGoing (now_of self.new)) }
        ensures unread { result ≡ Some ending.ReadFault → ⊥ }
        ensures cause { result ≡ Some ending.WriteFault → Rose (K.faults sink.old) (K.faults sink.new) }
        ensures steady { K.faults sink.old ≤ K.faults sink.new }
    {
        if self.is_up() {
            return self.serve(rt, alloc, sink, &Command::Restart);
        }
        self.begin_next(alloc, sink)
    }

    /// Ends the life that goes on, if one does, and begins the next. What a node wrote and didn't sync before
    /// it stopped is lost, as at a crash, so that the next life rests on nothing that it might not find.
    fn begin_next<K: Sink>(&mut self, alloc: Global, sink: &mut K) -> Option<Ending>
        requires kept { AreKept self.old }
        requires going { IsGoing (now_of self.old) }
        requires down { is_up (now_of self.old) ≡ false }
        ensures shape { self.new.shape ≡ self.old.shape }
        ensures obeyed { Obeys self.old.shape commands.Restart (seen_on D.told D.faults (disks_of self.old)) (seen_on D.told D.faults (disks_of self.new)) self.old.ended.items self.new.ended.items (now_of self.old) (now_of self.new) (K.written sink.old) (K.written sink.new) result }
        ensures kept { AreKept self.new }
        ensures going { IfNone result (IsGoing (now_of self.new)) }
        ensures unread { result ≡ Some ending.ReadFault → ⊥ }
        ensures cause { result ≡ Some ending.WriteFault → Rose (K.faults sink.old) (K.faults sink.new) }
        ensures steady { K.faults sink.old ≤ K.faults sink.new }
    {
        self.power_off(alloc);
        match self.open(alloc) {
            None => self.tell_restarted(alloc, sink),
            refused => refused,
        }
    }

    /// Prints which epoch the life that goes on restored.
    fn tell_restarted<K: Sink>(&self, alloc: Global, sink: &mut K) -> Option<Ending>
        ensures told { IsLineTold result (reply_text (Restarted (start_in self.now.shape (now_of self.now)).start_epoch)) (K.written sink.old) (K.written sink.new) }
        ensures cause { result ≡ Some ending.WriteFault → Rose (K.faults sink.old) (K.faults sink.new) }
        ensures steady { K.faults sink.old ≤ K.faults sink.new }
    {
        match restarted_line(alloc, self.start_epoch()) {
            Ok(line) => tell(sink, &line),
            Err(NoMemory) => Some(Ending::NoMemory),
        }
    }

    /// The epoch that the life restored which goes on; 0 where none does.
    fn start_epoch(&self) -> u64
        ensures { result ≡ (start_in self.now.shape (now_of self.now)).start_epoch }
    {
        match &self.world {
            Some(world) => world.start_epoch(),
            None => 0,
        }
    }

    /// Ends the life that goes on, if one does, by a loss of power. Takes no memory.
    fn power_off(&mut self, alloc: Global)
        requires kept { AreKept self.old }
        ensures shape { self.new.shape ≡ self.old.shape }
        ensures ended { self.new.ended.items ≡ all_lives self.old.ended.items (now_of self.old) }
        ensures none { self.new.world ≡ None }
        ensures lost { HaveLostPower (now_of self.old) (seen_on D.told D.faults (disks_of self.old)) (seen_on D.told D.faults (disks_of self.new)) }
        ensures kept { AreKept self.new }
    {
        if self.world.is_none() {
            return;
        }
        self.end(alloc);
        self.cut_power();
    }

    /// Ends the life that goes on, if one does. Takes no memory.
    fn end(&mut self, alloc: Global)
        requires { AreKept self.old }
        ensures shape { self.new.shape ≡ self.old.shape }
        ensures ended { self.new.ended.items ≡ all_lives self.old.ended.items (now_of self.old) }
        ensures none { self.new.world ≡ None }
        ensures disks { self.new.disks.items ≡ disks_of self.old }
    {
        if let Some(world) = self.world.take() {
            let ended = world.end(alloc);
            self.ended.push_reserved(ended.life);
            self.disks = ended.disks;
        }
    }

    /// The nodes' disks lose what wasn't synced, as by a loss of power.
    fn cut_power(&mut self)
        requires unopened { self.old.world ≡ None }
        requires disks { length self.old.disks.items ≡ self.old.shape.nodes }
        ensures shape { self.new.shape ≡ self.old.shape }
        ensures ended { self.new.ended ≡ self.old.ended }
        ensures none { self.new.world ≡ None }
        ensures disks { length self.new.disks.items ≡ length self.old.disks.items }
        ensures lost { HaveLost (seen_on D.told D.faults self.old.disks.items) (seen_on D.told D.faults self.new.disks.items) }
    {
        for disk in self.disks.iter_mut() {
            disk.cut_power();
        }
    }

    /// Ends the life that goes on, if one does, and gives all lives, the first one first, and the disks.
    /// Takes no memory.
    pub fn into_parts(self, alloc: Global) -> Parts<D>
        requires { AreKept self }
        ensures lives { result.lives.items ≡ all_lives self.ended.items (now_of self) }
        ensures disks { result.disks.items ≡ disks_of self }
    {
        let mut lives = self;
        lives.end(alloc);
        let Lives { ended, disks, .. } = lives;
        Parts {
            lives: ended,
            disks,
        }
    }
}

/// All lives of a cluster, the first one first, and its disks.
#[derive(Drop)]
pub struct Parts<D: Disk> {
    pub lives: Vec<Life>,
    pub disks: Vec<D>,
}

/// The line that tells which epoch was restored.
fn restarted_line(alloc: Global, epoch: u64) -> Result<Vec<u8>, NoMemory>
    ensures { IfOk result (λ line. line.items ≡ reply_text (Restarted epoch)) }
{
    let mut line = Vec::new(alloc);
    print_reply(alloc, &ApiReply::Restarted { epoch }, &mut line)?;
    Ok(line)
}

/// Prints a line. Says that the sink failed, if it did.
fn tell<K: Sink>(sink: &mut K, line: &[u8]) -> Option<Ending>
    ensures told { IsLineTold result line.now (K.written sink.old) (K.written sink.new) }
    ensures cause { result ≡ Some ending.WriteFault → Rose (K.faults sink.old) (K.faults sink.new) }
    ensures steady { K.faults sink.old ≤ K.faults sink.new }
{
    match write_all(sink, line) {
        Ok(()) => None,
        Err(_) => Some(Ending::WriteFault),
    }
}
