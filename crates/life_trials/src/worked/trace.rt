//! What is told of the logs of a life.
use crate::worked::kind::kind_of;
use crate::worked::line::Line;
use script_lang::print_reply;
use sig_core::{ApiReply, HostId, HostLog, Key, Life, LogStep, Mark, NoMemory, TxId};
use std::alloc::Global;

/// Adds what a line asks of the logs to a text, if it asks anything of them.
///
/// # Errors
/// `NoMemory`.
pub fn tell_log(
    alloc: Global,
    life: &Life,
    line: &Line,
    text: &mut Vec<u8>,
) -> Result<(), NoMemory> {
    match line {
        Line::Log(host) => tell_host(alloc, life, *host, text),
        Line::Count(kind) => tell_count(alloc, life, kind, text),
        _ => Ok(()),
    }
}

fn tell_count(alloc: Global, life: &Life, kind: &str, text: &mut Vec<u8>) -> Result<(), NoMemory> {
    let mut count = 0u64;
    for log in life.logs.as_slice() {
        count = count.saturating_add(count_in(log, kind));
    }
    let line = format!(in alloc; "{kind} {count}\n")?;
    text.extend_from_slice(line.as_bytes())?;
    Ok(())
}

fn count_in(log: &HostLog, kind: &str) -> u64 {
    let mut count = 0u64;
    for step in log.steps.as_slice() {
        if kind_of(&step.taken.get().body) == kind {
            count = count.saturating_add(1);
        }
    }
    count
}

fn tell_host(alloc: Global, life: &Life, host: HostId, text: &mut Vec<u8>) -> Result<(), NoMemory> {
    for log in life.logs.as_slice() {
        if log.host == host {
            tell_steps(alloc, log, text)?;
        }
    }
    Ok(())
}

fn tell_steps(alloc: Global, log: &HostLog, text: &mut Vec<u8>) -> Result<(), NoMemory> {
    let host = log.host.0;
    let line = format!(in alloc; "host {host}\n")?;
    text.extend_from_slice(line.as_bytes())?;
    for step in log.steps.as_slice() {
        tell_step(alloc, step, text)?;
    }
    Ok(())
}

fn tell_step(alloc: Global, step: &LogStep, text: &mut Vec<u8>) -> Result<(), NoMemory> {
    let signal = step.taken.get();
    let kind = kind_of(&signal.body);
    let from = signal.from.0;
    let line = format!(in alloc; "- {kind} of {from}\n")?;
    text.extend_from_slice(line.as_bytes())?;
    for mark in step.marks.as_slice() {
        text.extend_from_slice(b"  ")?;
        tell_mark(alloc, mark, text)?;
    }
    Ok(())
}

// Marks that a reply tells too have the words of that.
fn tell_mark(alloc: Global, mark: &Mark, text: &mut Vec<u8>) -> Result<(), NoMemory> {
    match mark {
        Mark::Prepared { tx, key } => tell_row(alloc, "prepared", tx, key, text),
        Mark::Applied { tx, key } => tell_row(alloc, "applied", tx, key, text),
        Mark::Done { tx, key } => tell_row(alloc, "done", tx, key, text),
        Mark::Expired { tx, key } => tell_row(alloc, "expired", tx, key, text),
        Mark::Decided { tx, epoch: _ } => tell_transaction(alloc, "decided", tx, text),
        Mark::Promised { number } => tell_number(alloc, "promised", *number, text),
        Mark::Installed { view } => print_reply(alloc, &ApiReply::View { view: *view.get() }, text),
        Mark::Reported { tx, outcome } => {
            let outcome = *outcome;
            let name = None;
            tell_transaction(alloc, "reported", tx, text)?;
            text.extend_from_slice(b"  ")?;
            print_reply(alloc, &ApiReply::Ended { name, outcome }, text)
        }
        Mark::Closed { epoch } => print_reply(alloc, &ApiReply::Closed { epoch: *epoch }, text),
        Mark::Durable { epoch } => print_reply(alloc, &ApiReply::Durable { epoch: *epoch }, text),
        Mark::CutOff { host } => tell_number(alloc, "cut off", u64::from(host.0), text),
        Mark::Down { group } => tell_number(alloc, "down", u64::from(*group), text),
        Mark::Stopped { .. } => {
            text.extend_from_slice(b"stopped\n")?;
            Ok(())
        }
    }
}

fn tell_row(
    alloc: Global,
    word: &str,
    tx: &TxId,
    key: &Key,
    text: &mut Vec<u8>,
) -> Result<(), NoMemory> {
    let node = tx.tc;
    let number = tx.seq;
    let line = format!(in alloc; "{word} {node}.{number} ")?;
    text.extend_from_slice(line.as_bytes())?;
    text.extend_from_slice(key.bytes())?;
    text.push(b'\n')?;
    Ok(())
}

fn tell_transaction(
    alloc: Global,
    word: &str,
    tx: &TxId,
    text: &mut Vec<u8>,
) -> Result<(), NoMemory> {
    let node = tx.tc;
    let number = tx.seq;
    let line = format!(in alloc; "{word} {node}.{number}\n")?;
    text.extend_from_slice(line.as_bytes())?;
    Ok(())
}

fn tell_number(alloc: Global, word: &str, number: u64, text: &mut Vec<u8>) -> Result<(), NoMemory> {
    let line = format!(in alloc; "{word} {number}\n")?;
    text.extend_from_slice(line.as_bytes())?;
    Ok(())
}
