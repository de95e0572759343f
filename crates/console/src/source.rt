//! The source of a console: it gives only lines that the session takes.
ghost use Rattle.std.specs.Prelude.{◌≡◌, ◌≤◌, IfOk, OnErr, take, length};
ghost use Rattle.std.specs.Io.KnownBytes.{ReadConsumes};
ghost use Rattle.host_io.specs.Fault.{Rose};
ghost use Rattle.console.specs.Given.{GivesNext};
ghost use Rattle.console.specs.Lines.{given_of};

use crate::lines::Lines;
use crate::screen::Notes;
use host_io::{Failed, Source};
use std::alloc::Global;

/// A source over another: it gives those of its lines that the session takes, each with a newline,
/// and tells of each other line why it doesn't. It gives at most as many lines as a session has.
#[derive(Drop)]
pub struct Console<S, N> {
    pub source: S,
    pub notes: N,
    pub lines: Lines,
    pub faults: u64,
}

impl<S: Source, N: Notes> Console<S, N> {
    /// A console over this source, for a cluster of so many nodes.
    pub fn new(alloc: Global, source: S, notes: N, nodes: u8) -> Console<S, N> {
        Console {
            source,
            notes,
            lines: Lines::new(alloc, nodes),
            faults: 0,
        }
    }
}

impl<S: Source, N: Notes> Source for Console<S, N> {
    ghost left = { λ s. given_of s.lines (S.left s.source) };

    ghost faults = { λ s. s.faults };

    /// Whatever it gives is what is left of a line that the session takes, or the next such line.
    fn read(&mut self, buf: &mut [u8]) -> Result<usize, Failed>
        ensures within { IfOk result (λ n. n ≤ length buf.old) }
        ensures bytes { ReadConsumes (given_of self.old.lines (S.left self.old.source)) (given_of self.new.lines (S.left self.new.source)) result buf.new }
        ensures cause { OnErr result (Rose self.old.faults self.new.faults) }
        ensures steady { self.old.faults ≤ self.new.faults }
        ensures taken { IfOk result (λ n. GivesNext self.old.lines.nodes self.old.lines.rest.items self.new.lines.rest.items (take n buf.new)) }
    {
        match self.lines.hand_over(&mut self.source, &mut self.notes, buf) {
            Ok(count) => Ok(count),
            Err(Failed) => {
                self.faults = self.faults.saturating_add(1);
                Err(Failed)
            }
        }
    }

    fn faults(&self) -> u64 {
        self.faults
    }
}
