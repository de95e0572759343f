//! The top call: a whole session, or the check of a trace.
ghost use Rattle.std.specs.Prelude.{◌≡◌, ◌≤◌, ◌⊎◌, [], true, IfOk, None, Some, drop, length, map, string_bytes, take};
ghost use Rattle.frag_map.specs.Shape.{IsShape};
ghost use Rattle.host_io.specs.Fault.{Rose};
ghost use Rattle.shell_top.specs.declared.ended.Ending.TheVariants as ending;
ghost use Rattle.shell_top.specs.Lives.{AreKept, HasBegun, IsGoing, disks_of, now_of};
ghost use Rattle.shell_top.specs.Printed.{Prints, is_cut_short};
ghost use Rattle.shell_top.specs.Seen.{HasGrown, Seen, seen_on};
ghost use Rattle.shell_top.specs.Checked.{HasChecked};
ghost use Rattle.shell_top.specs.Run.{HasRun};
ghost use Rattle.shell_top.specs.Session.{IsSession, nodes_of};
ghost use Rattle.shell_top.specs.Text.{fault_line, status_after};
ghost use Rattle.shell_top.specs.Traced.{HasTraced};
ghost use Rattle.shell_top.specs.Words.{IsAskable, asked_of, asked_shape, session_shape};

use crate::checked::{find, telling_of};
use crate::disks::{put_aside, put_back};
use crate::ended::{Ended, Ending, is_cut_short};
use crate::lives::{Lives, Parts};
use crate::reader::Reader;
use crate::session::Session;
use crate::telling::tell;
use crate::text::{fault_line, status_after};
use crate::traced::traced;
use crate::unheard::Unheard;
use crate::words::{Asked, asked_of};
use crate::writer::write_all;
use host_io::{Disk, Gate, Sink, Source};
use sig_core::{Life, NoMemory, Shape};
use std::alloc::Global;
use std::sync::Wait;
use std::thread::Threads;

/// Does what the words ask for. A session of a cluster: it reads a script from the source, has the cluster
/// serve each command, and writes the replies to the sink, or, with `--trace`, the trace of its last life
/// in their place. Its nodes have the first of the eight disks: a life begins from what these say, the
/// first one here, and each later one, once their power was cut, at a `restart` of a cluster that is down.
/// Where the words are refused, or the first life doesn't begin, nothing is read. With `--check` it reads a
/// trace, and tells its history, or why it isn't that of a right life; no cluster lives, and nothing is
/// done to a disk. The disks are handed back in their order.
pub fn run_shell<R: Threads + Wait + Sync, S: Source, K: Sink, G: Gate + Sync>(
    rt: &R,
    alloc: Global,
    words: &[String],
    source: &mut S,
    sink: &mut K,
    disks: Vec<Box<dyn Disk + Send>>,
    _gate: &G,
) -> Ended
    requires { length disks.items ≡ 8 }
    ensures run { HasRun (asked_of (map string_bytes words.now)) (S.left source.old) (S.left source.new) (K.written sink.old) (K.written sink.new) (Rose (S.faults source.old) (S.faults source.new)) (Rose (K.faults sink.old) (K.faults sink.new)) (seen_on ⟦<Box<dyn Disk + Send> as Disk>⟧.told ⟦<Box<dyn Disk + Send> as Disk>⟧.faults (take (nodes_of (asked_shape (map string_bytes words.now))) disks.items)) (seen_on ⟦<Box<dyn Disk + Send> as Disk>⟧.told ⟦<Box<dyn Disk + Send> as Disk>⟧.faults (take (nodes_of (asked_shape (map string_bytes words.now))) result.disks.items)) result.status result.lives.items }
    ensures read_fault { result.status ≡ 3 → Rose (S.faults source.old) (S.faults source.new) }
    ensures write_fault { result.status ≡ 4 → Rose (K.faults sink.old) (K.faults sink.new) }
    ensures disks { length result.disks.items ≡ 8 }
    ensures unused { drop (nodes_of (asked_shape (map string_bytes words.now))) result.disks.items ≡ drop (nodes_of (asked_shape (map string_bytes words.now))) disks.items }
{
    let left = run_words(rt, alloc, words, source, sink, disks);
    Ended {
        status: left.status,
        lives: left.lives,
        disks: left.disks,
    }
}

/// The status with which the program ends, what the hosts did, and the disks.
#[derive(Drop)]
struct Left<D: Disk> {
    status: u8,
    lives: Vec<Life>,
    disks: Vec<D>,
}

/// Does what the words ask for.
fn run_words<R: Wait, S: Source, K: Sink, D: Disk>(
    rt: &R,
    alloc: Global,
    words: &[String],
    source: &mut S,
    sink: &mut K,
    disks: Vec<D>,
) -> Left<D>
    requires { length disks.items ≡ 8 }
    ensures run { HasRun (asked_of (map string_bytes words.now)) (S.left source.old) (S.left source.new) (K.written sink.old) (K.written sink.new) (Rose (S.faults source.old) (S.faults source.new)) (Rose (K.faults sink.old) (K.faults sink.new)) (seen_on D.told D.faults (take (nodes_of (asked_shape (map string_bytes words.now))) disks.items)) (seen_on D.told D.faults (take (nodes_of (asked_shape (map string_bytes words.now))) result.disks.items)) result.status result.lives.items }
    ensures read_fault { result.status ≡ 3 → Rose (S.faults source.old) (S.faults source.new) }
    ensures write_fault { result.status ≡ 4 → Rose (K.faults sink.old) (K.faults sink.new) }
    ensures disks { length result.disks.items ≡ 8 }
    ensures unused { drop (nodes_of (asked_shape (map string_bytes words.now))) result.disks.items ≡ drop (nodes_of (asked_shape (map string_bytes words.now))) disks.items }
{
    match asked_of(alloc, words) {
        Ok(Some(asked)) => run_asked(rt, alloc, asked, source, sink, disks),
        Ok(None) => left_by(Outcome {
            ending: finish(alloc, sink, Ending::Words),
            lives: Vec::new(alloc),
            disks,
        }),
        Err(NoMemory) => left_by(unstarted(alloc, disks)),
    }
}

/// Does what is asked for.
fn run_asked<R: Wait, S: Source, K: Sink, D: Disk>(
    rt: &R,
    alloc: Global,
    asked: Asked,
    source: &mut S,
    sink: &mut K,
    disks: Vec<D>,
) -> Left<D>
    requires askable { IsAskable asked }
    requires eight { length disks.items ≡ 8 }
    ensures run { HasRun (Some asked) (S.left source.old) (S.left source.new) (K.written sink.old) (K.written sink.new) (Rose (S.faults source.old) (S.faults source.new)) (Rose (K.faults sink.old) (K.faults sink.new)) (seen_on D.told D.faults (take (nodes_of (session_shape (Some asked))) disks.items)) (seen_on D.told D.faults (take (nodes_of (session_shape (Some asked))) result.disks.items)) result.status result.lives.items }
    ensures read_fault { result.status ≡ 3 → Rose (S.faults source.old) (S.faults source.new) }
    ensures write_fault { result.status ≡ 4 → Rose (K.faults sink.old) (K.faults sink.new) }
    ensures disks { length result.disks.items ≡ 8 }
    ensures unused { drop (nodes_of (session_shape (Some asked))) result.disks.items ≡ drop (nodes_of (session_shape (Some asked))) disks.items }
{
    match asked {
        Asked::Replies(shape) => left_by(run_shape(rt, alloc, shape, source, sink, disks)),
        Asked::Trace(shape) => run_traced(rt, alloc, shape, source, sink, disks),
        Asked::Check => Left {
            status: run_check(alloc, source, sink),
            lives: Vec::new(alloc),
            disks,
        },
    }
}

/// Runs a session of a cluster of this shape, and tells in place of its replies the trace of its last life.
fn run_traced<R: Wait, S: Source, K: Sink, D: Disk>(
    rt: &R,
    alloc: Global,
    shape: Shape,
    source: &mut S,
    sink: &mut K,
    disks: Vec<D>,
) -> Left<D>
    requires shape { IsShape shape }
    requires eight { length disks.items ≡ 8 }
    ensures traced { HasTraced shape (S.left source.old) (S.left source.new) (K.written sink.old) (K.written sink.new) (Rose (S.faults source.old) (S.faults source.new)) (Rose (K.faults sink.old) (K.faults sink.new)) (seen_on D.told D.faults (take shape.nodes disks.items)) (seen_on D.told D.faults (take shape.nodes result.disks.items)) result.status result.lives.items }
    ensures read_fault { result.status ≡ 3 → Rose (S.faults source.old) (S.faults source.new) }
    ensures write_fault { result.status ≡ 4 → Rose (K.faults sink.old) (K.faults sink.new) }
    ensures disks { length result.disks.items ≡ 8 }
    ensures unused { drop shape.nodes result.disks.items ≡ drop shape.nodes disks.items }
{
    let mut unheard = Unheard;
    let outcome = run_shape(rt, alloc, shape, source, &mut unheard, disks);
    let telling = traced(alloc, shape, &outcome.ending, outcome.lives.as_slice());
    Left {
        status: tell(sink, telling),
        lives: outcome.lives,
        disks: outcome.disks,
    }
}

/// Reads a trace, checks it, and tells what is found. Gives the status with which the program ends.
fn run_check<S: Source, K: Sink>(alloc: Global, source: &mut S, sink: &mut K) -> u8
    ensures checked { HasChecked (S.left source.old) (S.left source.new) (K.written sink.old) (K.written sink.new) (Rose (S.faults source.old) (S.faults source.new)) (Rose (K.faults sink.old) (K.faults sink.new)) result [] }
    ensures read_fault { result ≡ 3 → Rose (S.faults source.old) (S.faults source.new) }
    ensures write_fault { result ≡ 4 → Rose (K.faults sink.old) (K.faults sink.new) }
{
    let found = find(alloc, source);
    tell(sink, telling_of(alloc, &found))
}

/// How a session ended, what the hosts did in it, and the disks.
#[derive(Drop)]
struct Outcome<D: Disk> {
    ending: Ending,
    lives: Vec<Life>,
    disks: Vec<D>,
}

/// What is left of a session that ended so.
fn left_by<D: Disk>(outcome: Outcome<D>) -> Left<D>
    ensures status { result.status ≡ status_after outcome.ending outcome.lives.items }
    ensures lives { result.lives ≡ outcome.lives }
    ensures disks { result.disks ≡ outcome.disks }
{
    Left {
        status: status_after(&outcome.ending, outcome.lives.as_slice()),
        lives: outcome.lives,
        disks: outcome.disks,
    }
}

/// Memory was wanting before anything was done.
fn unstarted<D: Disk>(alloc: Global, disks: Vec<D>) -> Outcome<D>
    ensures ending { result.ending ≡ ending.NoMemory }
    ensures lives { result.lives.items ≡ [] }
    ensures disks { result.disks ≡ disks }
{
    Outcome {
        ending: Ending::NoMemory,
        lives: Vec::new(alloc),
        disks,
    }
}

/// Runs a session of a cluster of this shape on the first of these disks, and says how it ended.
fn run_shape<R: Wait, S: Source, K: Sink, D: Disk>(
    rt: &R,
    alloc: Global,
    shape: Shape,
    source: &mut S,
    sink: &mut K,
    disks: Vec<D>,
) -> Outcome<D>
    requires shape { IsShape shape }
    requires eight { length disks.items ≡ 8 }
    ensures session { IsSession (Some shape) (S.left source.old) (S.left source.new) (K.written sink.old) (K.written sink.new) (Rose (S.faults source.old) (S.faults source.new)) (Rose (K.faults sink.old) (K.faults sink.new)) (seen_on D.told D.faults (take shape.nodes disks.items)) (seen_on D.told D.faults (take shape.nodes result.disks.items)) result.ending result.lives.items }
    ensures read_fault { result.ending ≡ ending.ReadFault → Rose (S.faults source.old) (S.faults source.new) }
    ensures write_fault { result.ending ≡ ending.WriteFault → Rose (K.faults sink.old) (K.faults sink.new) }
    ensures disks { length result.disks.items ≡ 8 }
    ensures unused { drop shape.nodes result.disks.items ≡ drop shape.nodes disks.items }
{
    let mut disks = disks;
    match put_aside(alloc, &mut disks, usize::from(shape.nodes)) {
        Ok(aside) => {
            let outcome = run_lives(rt, alloc, source, sink, Lives::new(alloc, shape, disks));
            Outcome {
                ending: outcome.ending,
                lives: outcome.lives,
                disks: put_back(outcome.disks, aside),
            }
        }
        Err(NoMemory) => unstarted(alloc, disks),
    }
}

/// Begins the first life of a cluster, runs a session of it, and says how that ended.
fn run_lives<R: Wait, S: Source, K: Sink, D: Disk>(
    rt: &R,
    alloc: Global,
    source: &mut S,
    sink: &mut K,
    lives: Lives<D>,
) -> Outcome<D>
    requires kept { AreKept lives }
    requires none { lives.ended.items ≡ [] }
    requires unopened { lives.world ≡ None }
    ensures session { IsSession (Some lives.shape) (S.left source.old) (S.left source.new) (K.written sink.old) (K.written sink.new) (Rose (S.faults source.old) (S.faults source.new)) (Rose (K.faults sink.old) (K.faults sink.new)) (seen_on D.told D.faults (disks_of lives)) (seen_on D.told D.faults (result.disks.items)) result.ending result.lives.items }
    ensures read_fault { result.ending ≡ ending.ReadFault → Rose (S.faults source.old) (S.faults source.new) }
    ensures write_fault { result.ending ≡ ending.WriteFault → Rose (K.faults sink.old) (K.faults sink.new) }
    ensures disks { length result.disks.items ≡ lives.shape.nodes }
{
    let mut lives = lives;
    let Ok(reader) = Reader::new(alloc) else {
        return end(alloc, sink, Ending::NoMemory, lives.into_parts(alloc));
    };
    match lives.open(alloc) {
        None => run_opened(rt, alloc, source, sink, Session::new(reader, lives)),
        Some(refused) => end(alloc, sink, refused, lives.into_parts(alloc)),
    }
}

/// Runs a session whose first life has begun, on disks of which so much was seen before that, and says
/// how it ended.
fn run_opened<R: Wait, S: Source, K: Sink, D: Disk>(
    rt: &R,
    alloc: Global,
    source: &mut S,
    sink: &mut K,
    session: Session<D>,
) -> Outcome<D>
    requires kept { AreKept session.lives }
    requires going { IsGoing (now_of session.lives) }
    requires none { session.lives.ended.items ≡ [] }
    requires reader { session.reader ≡ [] }
    requires line { session.line ≡ 1 }
    ensures session { (given : Seen) → HasBegun session.lives.shape given (seen_on D.told D.faults (disks_of session.lives)) (now_of session.lives) → HasGrown given (seen_on D.told D.faults (disks_of session.lives)) → IsSession (Some session.lives.shape) (S.left source.old) (S.left source.new) (K.written sink.old) (K.written sink.new) (Rose (S.faults source.old) (S.faults source.new)) (Rose (K.faults sink.old) (K.faults sink.new)) given (seen_on D.told D.faults (result.disks.items)) result.ending result.lives.items }
    ensures read_fault { result.ending ≡ ending.ReadFault → Rose (S.faults source.old) (S.faults source.new) }
    ensures write_fault { result.ending ≡ ending.WriteFault → Rose (K.faults sink.old) (K.faults sink.new) }
    ensures disks { length result.disks.items ≡ session.lives.shape.nodes }
{
    let mut session = session;
    let meant = session.run(rt, alloc, source, sink);
    end(alloc, sink, meant, session.into_parts(alloc))
}

/// Ends a session that is meant to end so.
fn end<K: Sink, D: Disk>(alloc: Global, sink: &mut K, meant: Ending, parts: Parts<D>) -> Outcome<D>
    ensures printed { Prints result.ending meant (K.written sink.old) (K.written sink.new) (fault_line meant) }
    ensures cut_short { is_cut_short meant ≡ true → result.ending ≡ meant }
    ensures read_fault { result.ending ≡ ending.ReadFault → meant ≡ ending.ReadFault }
    ensures write_fault { result.ending ≡ ending.WriteFault → meant ≡ ending.WriteFault ⊎ Rose (K.faults sink.old) (K.faults sink.new) }
    ensures steady { K.faults sink.old ≤ K.faults sink.new }
    ensures lives { result.lives ≡ parts.lives }
    ensures disks { result.disks ≡ parts.disks }
{
    Outcome {
        ending: finish(alloc, sink, meant),
        lives: parts.lives,
        disks: parts.disks,
    }
}

/// Prints the line of the fault by which a session is meant to end, and says how it ends. Where the
/// replies were cut short, that stays why.
fn finish<K: Sink>(alloc: Global, sink: &mut K, meant: Ending) -> Ending
    ensures printed { Prints result meant (K.written sink.old) (K.written sink.new) (fault_line meant) }
    ensures cut_short { is_cut_short meant ≡ true → result ≡ meant }
    ensures read_fault { result ≡ ending.ReadFault → meant ≡ ending.ReadFault }
    ensures write_fault { result ≡ ending.WriteFault → meant ≡ ending.WriteFault ⊎ Rose (K.faults sink.old) (K.faults sink.new) }
    ensures steady { K.faults sink.old ≤ K.faults sink.new }
{
    if is_cut_short(&meant) {
        return meant;
    }
    let line = match fault_line(alloc, &meant) {
        Ok(line) => line,
        Err(NoMemory) => return Ending::NoMemory,
    };
    match write_all(sink, line.as_bytes()) {
        Ok(()) => meant,
        Err(_) => Ending::WriteFault,
    }
}
