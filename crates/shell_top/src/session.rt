//! A session: line after line is read, served and answered.
ghost use Rattle.std.specs.Prelude.{◌≡◌, ◌≤◌, ◌<◌, ◌+◌, ℕ, List, Option, None, Some, IfNone, length};
ghost use Rattle.std.specs.Prelude.{position, nat_lt, ◌&&◌};
ghost use Rattle.std.specs.Io.KnownBytes.{IsAtEnd};
ghost use Rattle.host_io.specs.Fault.{Rose};
ghost use Rattle.shell_top.specs.declared.ended.Ending.TheVariants as ending;
ghost use Rattle.shell_top.specs.Reader.{IsPartial, is_newline};
ghost use Rattle.shell_top.specs.Lives.{AreKept, IsGoing, disks_of, now_of};
ghost use Rattle.shell_top.specs.Seen.{seen_on};
ghost use Rattle.shell_top.specs.Session.{GoesOn, GoesToEnd, lives_in};

use crate::ended::Ending;
use crate::lives::{Lives, Parts};
use crate::reader::{Filled, LINE_BYTES, Reader};
use crate::script::{Parsed, parse};
use host_io::{Disk, Sink, Source};
use std::alloc::Global;
use std::sync::Wait;

/// The most lines that a script has.
const LINES: u32 = 65_536;

/// What a session works with.
#[derive(Drop)]
pub struct Session<D: Disk> {
    reader: Reader,
    lives: Lives<D>,
    /// The number of the next line, from 1.
    line: u32,
}

impl<D: Disk> Session<D> {
    /// Before the first line, with the lives of a cluster.
    pub fn new(reader: Reader, lives: Lives<D>) -> Session<D>
        ensures { result ≡ record { reader = reader; lives = lives; line = 1 } }
    {
        Session {
            reader,
            lives,
            line: 1,
        }
    }

    /// Ends the life that goes on, if one does, and gives all lives and the disks. Takes no memory.
    pub fn into_parts(self, alloc: Global) -> Parts<D>
        requires { AreKept self.lives }
        ensures lives { result.lives.items ≡ lives_in self }
        ensures disks { result.disks.items ≡ disks_of self.lives }
    {
        self.lives.into_parts(alloc)
    }

    /// Reads, serves and answers line after line, and says why that ends.
    pub fn run<R: Wait, S: Source, K: Sink>(
        &mut self,
        rt: &R,
        alloc: Global,
        source: &mut S,
        sink: &mut K,
    ) -> Ending
        requires kept { AreKept self.old.lives }
        requires going { IsGoing (now_of self.old.lives) }
        ensures done { GoesToEnd self.old self.new (S.left source.old) (S.left source.new) (K.written sink.old) (K.written sink.new) (seen_on D.told D.faults (disks_of self.old.lives)) (seen_on D.told D.faults (disks_of self.new.lives)) result }
        ensures kept { AreKept self.new.lives }
        ensures shape { self.new.lives.shape ≡ self.old.lives.shape }
        ensures read_cause { result ≡ ending.ReadFault → Rose (S.faults source.old) (S.faults source.new) }
        ensures write_cause { result ≡ ending.WriteFault → Rose (K.faults sink.old) (K.faults sink.new) }
        ensures read_steady { S.faults source.old ≤ S.faults source.new }
        ensures write_steady { K.faults sink.old ≤ K.faults sink.new }
    {
        'lines: loop {
            if let Some(ending) = self.next_line(rt, alloc, source, sink) {
                return ending;
            }
        }
    }

    /// Reads, serves and answers the next line. Says why the session ends, if it does.
    fn next_line<R: Wait, S: Source, K: Sink>(
        &mut self,
        rt: &R,
        alloc: Global,
        source: &mut S,
        sink: &mut K,
    ) -> Option<Ending>
        requires kept { AreKept self.old.lives }
        requires going { IsGoing (now_of self.old.lives) }
        ensures done { GoesOn self.old self.new (S.left source.old) (S.left source.new) (K.written sink.old) (K.written sink.new) (seen_on D.told D.faults (disks_of self.old.lives)) (seen_on D.told D.faults (disks_of self.new.lives)) result }
        ensures kept { AreKept self.new.lives }
        ensures shape { self.new.lives.shape ≡ self.old.lives.shape }
        ensures going { IfNone result (IsGoing (now_of self.new.lives)) }
        ensures next { IfNone result ((self.new.line ≡ self.old.line + 1) × (self.old.line ≤ 65536)) }
        ensures read_cause { result ≡ Some ending.ReadFault → Rose (S.faults source.old) (S.faults source.new) }
        ensures write_cause { result ≡ Some ending.WriteFault → Rose (K.faults sink.old) (K.faults sink.new) }
        ensures read_steady { S.faults source.old ≤ S.faults source.new }
        ensures write_steady { K.faults sink.old ≤ K.faults sink.new }
    {
        let filled = self.reader.fill(source);
        let line = self.line;
        if self.is_past_end() {
            return Some(Ending::TooLong { line });
        }
        match filled {
            Filled::Line(at) => self.whole_line(rt, alloc, sink, at),
            Filled::Ended => Some(self.last_line(rt, alloc, sink)),
            Filled::Overlong => Some(Ending::TooLong { line }),
            Filled::Failed => Some(Ending::ReadFault),
            Filled::NoMemory => Some(Ending::NoMemory),
        }
    }

    /// Whether what is held belongs to a line past the last that a script may have.
    fn is_past_end(&self) -> bool
        ensures { result ≡ (nat_lt 65536 self.now.line && nat_lt 0 (length self.now.reader)) }
    {
        self.line > LINES && !self.reader.held().is_empty()
    }

    /// Serves and answers the line whose newline stands at a place of what is held.
    fn whole_line<R: Wait, K: Sink>(
        &mut self,
        rt: &R,
        alloc: Global,
        sink: &mut K,
        at: usize,
    ) -> Option<Ending>
        requires found { position is_newline self.old.reader ≡ Some at }
        requires low { self.old.line ≤ 65536 }
        requires kept { AreKept self.old.lives }
        requires going { IsGoing (now_of self.old.lives) }
        ensures going { IfNone result (IsGoing (now_of self.new.lives)) }
        ensures done { (left : Option (List ℕ)) → GoesOn self.old self.new left left (K.written sink.old) (K.written sink.new) (seen_on D.told D.faults (disks_of self.old.lives)) (seen_on D.told D.faults (disks_of self.new.lives)) result }
        ensures kept { AreKept self.new.lives }
        ensures shape { self.new.lives.shape ≡ self.old.lives.shape }
        ensures next { IfNone result (self.new.line ≡ self.old.line + 1) }
        ensures unread { result ≡ Some ending.ReadFault → ⊥ }
        ensures write_cause { result ≡ Some ending.WriteFault → Rose (K.faults sink.old) (K.faults sink.new) }
        ensures write_steady { K.faults sink.old ≤ K.faults sink.new }
    {
        let line = self.line;
        if at > LINE_BYTES {
            return Some(Ending::TooLong { line });
        }
        let parsed = parse(self.lives.nodes(), &self.reader.held()[..at]);
        self.reader.drop_front(at + 1);
        self.line = line + 1;
        match &parsed {
            Parsed::Nothing => None,
            Parsed::Ask(command) => self.lives.obey(rt, alloc, sink, command),
            Parsed::Quit => Some(Ending::Finished),
            Parsed::Fault(fault) => Some(Ending::Refused {
                line,
                fault: *fault,
            }),
        }
    }

    /// Serves and answers what stands behind the last newline, at the end of the source.
    fn last_line<R: Wait, K: Sink>(&mut self, rt: &R, alloc: Global, sink: &mut K) -> Ending
        requires partial { IsPartial self.old.reader }
        requires low { 0 < length self.old.reader → self.old.line ≤ 65536 }
        requires kept { AreKept self.old.lives }
        requires going { IsGoing (now_of self.old.lives) }
        ensures done { (left : Option (List ℕ)) → IsAtEnd left → GoesToEnd self.old self.new left left (K.written sink.old) (K.written sink.new) (seen_on D.told D.faults (disks_of self.old.lives)) (seen_on D.told D.faults (disks_of self.new.lives)) result }
        ensures kept { AreKept self.new.lives }
        ensures shape { self.new.lives.shape ≡ self.old.lives.shape }
        ensures unread { result ≡ ending.ReadFault → ⊥ }
        ensures write_cause { result ≡ ending.WriteFault → Rose (K.faults sink.old) (K.faults sink.new) }
        ensures write_steady { K.faults sink.old ≤ K.faults sink.new }
    {
        let line = self.line;
        let held = self.reader.held();
        if held.is_empty() {
            return Ending::Finished;
        }
        let parsed = parse(self.lives.nodes(), held);
        match &parsed {
            Parsed::Nothing => Ending::Finished,
            Parsed::Ask(command) => match self.lives.obey(rt, alloc, sink, command) {
                None => Ending::Finished,
                Some(ending) => ending,
            },
            Parsed::Quit => Ending::Finished,
            Parsed::Fault(fault) => Ending::Refused {
                line,
                fault: *fault,
            },
        }
    }
}
