//! What comes of a session.
use crate::fault::Fault;
use crate::logs::tell_lives;
use crate::pieces::Pieces;
use crate::session::{Change, DiskWrite, Run, Session, Setting};
use host_io::{Disk, MemDisk, MemSink, MemSource, NoGate, Sink, Source};
use shell_top::run_shell;
use std::alloc::Global;
use std::mem;
use std::sync::Wait;
use std::thread::Threads;

/// How many disks are handed in.
const DISKS: u8 = 8;

/// Plays a session, one run of the program after the other on the same disks, and tells what comes of
/// it.
pub fn play<R: Threads + Wait + Sync>(
    rt: &R,
    alloc: Global,
    session: Session,
    text: &mut Vec<u8>,
) -> Result<(), Fault> {
    let Session {
        title,
        run,
        earlier,
        setting,
    } = session;
    let title = title.as_str();
    add(text, &format!(in alloc; "session {title}\n")?)?;
    let mut disks: Vec<Box<dyn Disk + Send>> = Vec::new(alloc);
    for node in 1..=DISKS {
        disks.push(Box::new(alloc, fresh_disk(alloc, &setting, node)?)?)?;
    }
    let mut runs = earlier;
    runs.push(run)?;
    let mut fed = Vec::new(alloc);
    for run in runs {
        let mut run = run;
        fed.extend_from_slice(&run.script)?;
        run.script = mem::replace(&mut fed, Vec::new(alloc));
        change(&mut run.script, &run.changes)?;
        disks = play_run(rt, alloc, run, &setting, disks, &mut fed, text)?;
    }
    Ok(())
}

// Bytes of what is read are changed.
fn change(bytes: &mut [u8], changes: &[Change]) -> Result<(), Fault> {
    for change in changes {
        match bytes.get_mut(change.at) {
            Some(byte) => *byte = change.byte,
            None => return Err(Fault::Line),
        }
    }
    Ok(())
}

// A run of the program on these disks, which come back. What the next one reads is left in `fed`.
fn play_run<R: Threads + Wait + Sync>(
    rt: &R,
    alloc: Global,
    run: Run,
    setting: &Setting,
    disks: Vec<Box<dyn Disk + Send>>,
    fed: &mut Vec<u8>,
    text: &mut Vec<u8>,
) -> Result<Vec<Box<dyn Disk + Send>>, Fault> {
    let Run {
        words,
        script,
        writes,
        changes: _,
        feeds,
    } = run;
    let mut disks = disks;
    lay_all(disks.as_mut_slice(), &writes)?;
    // All come back from each run; this says so to its check.
    if disks.len() != usize::from(DISKS) {
        return Ok(disks);
    }
    let mut source = Pieces {
        source: MemSource::new(script, copied(alloc, &setting.no_reads)?)?,
        most: setting.piece,
    };
    let mut sink = MemSink::new(alloc, copied(alloc, &setting.no_writes)?)?;
    let ended = run_shell(rt, alloc, &words, &mut source, &mut sink, disks, &NoGate);
    if feeds {
        fed.extend_from_slice(sink.written())?;
        tell_count(alloc, sink.written(), text)?;
    } else {
        tell_last(sink.written(), setting.tail, text)?;
    }
    add(text, &format!(in alloc; "status {}\n", ended.status)?)?;
    tell_faults(alloc, "reads", source.faults(), text)?;
    tell_faults(alloc, "writes", sink.faults(), text)?;
    if setting.tells_logs {
        tell_lives(alloc, &ended.lives, text)?;
    }
    Ok(ended.disks)
}

// The disk of a node, which was never written.
fn fresh_disk(alloc: Global, setting: &Setting, node: u8) -> Result<MemDisk, Fault> {
    let mut fails = Vec::new(alloc);
    for call in setting.no_calls.as_slice() {
        if call.node == node {
            fails.push(call.at)?;
        }
    }
    Ok(MemDisk::new(alloc, fails, Vec::new(alloc))?)
}

// All is written that a run says is written before it.
fn lay_all(disks: &mut [Box<dyn Disk + Send>], writes: &[DiskWrite]) -> Result<(), Fault> {
    for write in writes {
        let at = usize::from(write.node).wrapping_sub(1);
        match disks.get_mut(at) {
            Some(disk) => lay(disk, write)?,
            None => return Err(Fault::Line),
        }
    }
    Ok(())
}

// These bytes are written to a disk, and stay there.
fn lay(disk: &mut Box<dyn Disk + Send>, write: &DiskWrite) -> Result<(), Fault> {
    match disk.write(write.file, write.at, &write.bytes) {
        Ok(()) => {}
        Err(_) => return Err(Fault::Line),
    }
    match disk.sync(write.file) {
        Ok(()) => Ok(()),
        Err(_) => Err(Fault::Line),
    }
}

fn copied(alloc: Global, numbers: &[u64]) -> Result<Vec<u64>, Fault> {
    let mut copy = Vec::new(alloc);
    copy.extend_from_slice(numbers)?;
    Ok(copy)
}

// How many bytes were written.
fn tell_count(alloc: Global, written: &[u8], text: &mut Vec<u8>) -> Result<(), Fault> {
    let count = written.len();
    add(text, &format!(in alloc; "bytes {count}\n")?)
}

// The last lines of what was printed, so many.
fn tell_last(written: &[u8], tail: usize, text: &mut Vec<u8>) -> Result<(), Fault> {
    let lines = written.iter().filter(|byte| **byte == b'\n').count();
    let left_out = lines.saturating_sub(tail);
    let mut passed = 0usize;
    for line in written.split_inclusive(|byte| *byte == b'\n') {
        if passed < left_out {
            passed = passed.saturating_add(1);
        } else {
            text.extend_from_slice(line)?;
        }
    }
    Ok(())
}

/// Adds words to the text.
pub fn add(text: &mut Vec<u8>, words: &str) -> Result<(), Fault> {
    Ok(text.extend_from_slice(words.as_bytes())?)
}

// How many calls failed, where one did.
fn tell_faults(alloc: Global, calls: &str, faults: u64, text: &mut Vec<u8>) -> Result<(), Fault> {
    if faults == 0 {
        return Ok(());
    }
    add(text, &format!(in alloc; "{calls} that failed {faults}\n")?)
}
