//! The lines that a console has read, and those that it gives.
ghost use Rattle.std.specs.Prelude.{◌≡◌, ◌≤◌, ◌<◌, ◌++◌, ◌∷◌, ℕ, List, Option, IfOk, OnOk, OnErr, Ok, None, Some, []};
ghost use Rattle.std.specs.Prelude.{false, true, length, min, position, drop, take};
ghost use Rattle.std.specs.Io.KnownBytes.{Consumes, IsAtEnd, Keeps, ReadConsumes};
ghost use Rattle.console.specs.Given.{GivesNext, IsFound, IsLine, is_newline, Reads};
ghost use Rattle.console.specs.Lines.{given_of};

use crate::screen::Notes;
use crate::taken::is_taken;
use host_io::{Failed, Source};
use std::alloc::Global;

/// The most lines that a session has.
const LINES: u32 = 65_536;

/// For how many bytes there is room in a read.
const CHUNK: usize = 512;

/// The lines that a console has read, and those that it gives.
#[derive(Drop)]
pub struct Lines {
    /// The nodes of the cluster.
    pub nodes: u8,
    /// What was read and not looked at.
    pub held: Vec<u8>,
    /// What is left of the line that is given.
    pub rest: Vec<u8>,
    /// How many lines were given.
    pub given: u32,
}

impl Lines {
    /// None yet, for a cluster of so many nodes.
    pub fn new(alloc: Global, nodes: u8) -> Lines {
        Lines {
            nodes,
            held: Vec::new(alloc),
            rest: Vec::new(alloc),
            given: 0,
        }
    }

    /// Looks at the line whose newline stands at a place of what is held, and says whether it is
    /// taken.
    #[tactic(auto, using(crate::proofs::LinesLemmas::whole_lines))]
    fn whole_line<N: Notes>(&mut self, notes: &mut N, at: usize) -> Result<bool, Failed>
        requires found { position is_newline self.old.held.items ≡ Some at }
        requires none_left { self.old.rest.items ≡ [] }
        requires room { self.old.given < 65536 }
        ensures same { (left : Option (List ℕ)) → Keeps (given_of self.old left) (given_of self.new left) }
        ensures nodes { self.new.nodes ≡ self.old.nodes }
        ensures taken { result ≡ Ok true → IsLine self.new.nodes self.new.rest.items }
        ensures passed { result ≡ Ok false → (self.new.rest.items ≡ []) × (self.new.given ≡ self.old.given) }
    {
        if !is_taken(self.nodes, &self.held[..at]) {
            notes.pass(&self.held[..at]);
            drop_front(&mut self.held, at + 1);
            return Ok(false);
        }
        lay(&mut self.rest, &self.held[..at])?;
        notes.give(&self.held[..at]);
        self.given += 1;
        drop_front(&mut self.held, at + 1);
        Ok(true)
    }

    /// Looks at what stands behind the last newline, at the end of the source, and says whether it is
    /// taken as a line.
    #[tactic(auto, using(crate::proofs::LinesLemmas::last_lines))]
    fn last_line<N: Notes>(&mut self, notes: &mut N) -> Result<bool, Failed>
        requires partial { position is_newline self.old.held.items ≡ None }
        requires none_left { self.old.rest.items ≡ [] }
        requires room { self.old.given < 65536 }
        ensures same { (left : Option (List ℕ)) → IsAtEnd left → Keeps (given_of self.old left) (given_of self.new left) }
        ensures nodes { self.new.nodes ≡ self.old.nodes }
        ensures taken { result ≡ Ok true → IsLine self.new.nodes self.new.rest.items }
        ensures passed { result ≡ Ok false → self.new.rest.items ≡ [] }
        ensures end { result ≡ Ok false → (left : Option (List ℕ)) → IsAtEnd left → IsAtEnd (given_of self.new left) }
    {
        notes.end(false);
        if !is_taken(self.nodes, &self.held) {
            notes.pass(&self.held);
            self.held.clear();
            return Ok(false);
        }
        lay(&mut self.rest, &self.held)?;
        notes.give(&self.held);
        self.given += 1;
        self.held.clear();
        Ok(true)
    }

    /// Reads on until a line is whole, and says where its newline stands. `None` at the end.
    #[tactic(auto, using(crate::proofs::LinesLemmas::reading))]
    fn read_line<S: Source>(&mut self, source: &mut S) -> Result<Option<usize>, Failed>
        ensures same { Keeps (given_of self.old (S.left source.old)) (given_of self.new (S.left source.new)) }
        ensures found { IfOk result (IsFound (S.left source.new) self.new.held.items) }
        ensures rest { self.new.rest ≡ self.old.rest }
        ensures given { self.new.given ≡ self.old.given }
        ensures nodes { self.new.nodes ≡ self.old.nodes }
    {
        fill(&mut self.held, source)
    }

    /// Reads lines until one is taken, and says whether one was.
    ///
    /// # Errors
    /// `Failed` where the source fails or memory is wanting.
    #[tactic(auto, using(crate::proofs::LinesLemmas::keeping))]
    fn next_line<S: Source, N: Notes>(
        &mut self,
        source: &mut S,
        notes: &mut N,
    ) -> Result<bool, Failed>
        requires none_left { self.old.rest.items ≡ [] }
        ensures same { Keeps (given_of self.old (S.left source.old)) (given_of self.new (S.left source.new)) }
        ensures nodes { self.new.nodes ≡ self.old.nodes }
        ensures taken { result ≡ Ok true → IsLine self.new.nodes self.new.rest.items }
        ensures none { result ≡ Ok false → (self.new.rest.items ≡ []) × IsAtEnd (given_of self.new (S.left source.new)) }
    {
        if self.given >= LINES {
            notes.end(true);
            return Ok(false);
        }
        for _ in 0..u64::MAX {
            notes.prompt();
            match self.read_line(source)? {
                Some(at) => {
                    if self.whole_line(notes, at)? {
                        return Ok(true);
                    }
                }
                None => return self.last_line(notes),
            }
        }
        Err(Failed)
    }

    /// Hands over what is left of a line, as much as the buffer has room for, and says how much.
    #[tactic(auto, using(crate::proofs::LinesLemmas::handing))]
    fn hand_rest(&mut self, buf: &mut [u8]) -> usize
        ensures within { result ≤ length buf.old }
        ensures bytes { (left : Option (List ℕ)) → Consumes (given_of self.old left) (given_of self.new left) (take result buf.new) }
        ensures parts { self.old.rest.items ≡ take result buf.new ++ self.new.rest.items }
        ensures some { 0 < length self.old.rest.items → 0 < length buf.new → 0 < result }
    {
        let count = copy_front(&self.rest, buf);
        drop_front(&mut self.rest, count);
        count
    }

    /// Hands over what is left of a line that was taken, or of the next one.
    ///
    /// # Errors
    /// `Failed` where the source fails or memory is wanting.
    #[tactic(auto, using(crate::proofs::LinesLemmas::giving))]
    pub fn hand_over<S: Source, N: Notes>(
        &mut self,
        source: &mut S,
        notes: &mut N,
        buf: &mut [u8],
    ) -> Result<usize, Failed>
        ensures within { IfOk result (λ n. n ≤ length buf.old) }
        ensures bytes { ReadConsumes (given_of self.old (S.left source.old)) (given_of self.new (S.left source.new)) result buf.new }
        ensures taken { IfOk result (λ n. GivesNext self.old.nodes self.old.rest.items self.new.rest.items (take n buf.new)) }
    {
        if !self.rest.is_empty() {
            return Ok(self.hand_rest(buf));
        }
        if self.next_line(source, notes)? {
            return Ok(self.hand_rest(buf));
        }
        Ok(0)
    }
}

/// Reads on until a line is whole, and says where its newline stands. `None` at the end.
fn fill<S: Source>(held: &mut Vec<u8>, source: &mut S) -> Result<Option<usize>, Failed>
    ensures reads { Reads (S.left source.old) (S.left source.new) held.old.items held.new.items }
    ensures found { IfOk result (IsFound (S.left source.new) held.new.items) }
{
    for _ in 0..u64::MAX {
        if let Some(at) = first_newline(held) {
            return Ok(Some(at));
        }
        if !add_read(held, source)? {
            return Ok(None);
        }
    }
    Err(Failed)
}

/// Lays out a line with its newline where nothing is left of another.
///
/// # Errors
/// `Failed` where memory is wanting, and then nothing is laid out.
fn lay(rest: &mut Vec<u8>, line: &[u8]) -> Result<(), Failed>
    requires { rest.old.items ≡ [] }
    ensures laid { OnOk result (rest.new.items ≡ line.now ++ 10 ∷ []) }
    ensures kept { OnErr result (rest.new.items ≡ []) }
{
    if rest.reserve(line.len().saturating_add(1)).is_err() {
        return Err(Failed);
    }
    if rest.extend_from_slice(line).is_err() || rest.push(b'\n').is_err() {
        rest.clear();
        return Err(Failed);
    }
    Ok(())
}

/// The place of the first newline.
fn first_newline(bytes: &[u8]) -> Option<usize>
    ensures { result ≡ position is_newline bytes.now }
{
    bytes.iter().position(|byte| *byte == b'\n')
}

/// Drops the first bytes of a vector.
fn drop_front(bytes: &mut Vec<u8>, count: usize)
    requires { count ≤ length bytes.old.items }
    ensures { bytes.new.items ≡ drop count bytes.old.items }
{
    let rest = bytes.len() - count;
    bytes.rotate_left(count);
    bytes.truncate(rest);
}

/// Copies the first of the bytes into the buffer, as many as it has room for, and says how many.
#[tactic(auto, using(crate::proofs::LinesLemmas::copying))]
fn copy_front(bytes: &[u8], buf: &mut [u8]) -> usize
    ensures most { result ≡ min (length buf.old) (length bytes.now) }
    ensures copied { bytes.now ≡ take result buf.new ++ drop result bytes.now }
{
    let count = buf.len().min(bytes.len());
    buf[..count].copy_from_slice(&bytes[..count]);
    count
}

/// Reads some bytes more and adds them to those that are held. Says whether there were any.
fn add_read<S: Source>(held: &mut Vec<u8>, source: &mut S) -> Result<bool, Failed>
    ensures reads { Reads (S.left source.old) (S.left source.new) held.old.items held.new.items }
    ensures none { result ≡ Ok false → (held.new.items ≡ held.old.items) × IsAtEnd (S.left source.new) }
{
    let mut chunk = [0; CHUNK];
    if held.reserve(CHUNK).is_err() {
        return Err(Failed);
    }
    let count = source.read(&mut chunk)?;
    if held.extend_from_slice(&chunk[..count]).is_err() {
        return Err(Failed);
    }
    Ok(count > 0)
}
