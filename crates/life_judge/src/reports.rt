//! What is reported, asked for and answered, against the history.
use crate::client::{Asked, Client, Report, is_same};
use crate::facts::Facts;
use crate::history::is_kept;
use crate::law::{Fault, Law};
use sig_core::{Answer, Entry, Op, Outcome, TxId};

/// Judges the reports of a cut: what is reported committed is in its history, with that epoch, and what
/// is reported aborted isn't.
///
/// # Errors
/// The first of these laws that is broken.
pub fn judge_reports(facts: &Facts) -> Result<(), Fault> {
    for at in 0..facts.client.reported.len() {
        if let Some((tx, report)) = facts.client.reported.get_index(at) {
            judge_report(facts, tx, report)?;
        }
    }
    Ok(())
}

fn judge_report(facts: &Facts, tx: &TxId, report: &Report) -> Result<(), Fault> {
    match report.outcome {
        Outcome::Committed(epoch) => judge_commit(facts, tx, epoch),
        Outcome::Aborted(_) => judge_abort(facts, tx),
        Outcome::Unknown => Ok(()),
    }
}

fn judge_commit(facts: &Facts, tx: &TxId, epoch: u64) -> Result<(), Fault> {
    if !is_decided(facts, tx, epoch) {
        return Err(Fault::Broken(Law::ReportedEpoch));
    }
    if !is_kept(facts, tx) {
        return Err(Fault::Broken(Law::ReportedIsApplied));
    }
    Ok(())
}

fn judge_abort(facts: &Facts, tx: &TxId) -> Result<(), Fault> {
    if facts.decisions.decided.contains_key(tx) && is_kept(facts, tx) {
        return Err(Fault::Broken(Law::AbortedInNoHistory));
    }
    Ok(())
}

fn is_decided(facts: &Facts, tx: &TxId, epoch: u64) -> bool {
    match facts.decisions.decided.get(tx) {
        Some(decision) => decision.epoch == epoch,
        None => false,
    }
}

/// Judges the entries of a history: the client wanted each of them committed, it has the operations
/// that were asked for, and the answers that were given.
///
/// # Errors
/// The first of these laws that is broken.
pub fn judge_entries(client: &Client, history: &[Entry]) -> Result<(), Fault> {
    for entry in history {
        judge_entry(client, entry)?;
    }
    Ok(())
}

fn judge_entry(client: &Client, entry: &Entry) -> Result<(), Fault> {
    if !client.wants_commit(&entry.tx) {
        return Err(Fault::Broken(Law::CommitIsWanted));
    }
    if !are_asked(client, &entry.tx, entry.ops.as_slice()) {
        return Err(Fault::Broken(Law::OperationsAsAsked));
    }
    if !are_given(client, &entry.tx, entry.ops.as_slice()) {
        return Err(Fault::Broken(Law::AnswersAsGiven));
    }
    Ok(())
}

// Whether these are the operations that were asked for, in their order.
fn are_asked(client: &Client, tx: &TxId, ops: &[(Op, Answer)]) -> bool {
    let mut at = 0usize;
    for asked in client.asked.as_slice() {
        if asked.tx == *tx {
            if !is_asked(client, asked, ops.get(at)) {
                return false;
            }
            at = at.saturating_add(1);
        }
    }
    at == ops.len()
}

// Whether there is an operation, which is the one that was asked for.
fn is_asked(client: &Client, asked: &Asked, op: Option<&(Op, Answer)>) -> bool {
    match op {
        Some(op) => is_same(&op.0, &asked.op) && client.is_wished(asked),
        None => false,
    }
}

// Whether they have the answers that were given, in their order.
fn are_given(client: &Client, tx: &TxId, ops: &[(Op, Answer)]) -> bool {
    let mut at = 0;
    for given in client.given.as_slice() {
        if given.tx == *tx {
            if at >= ops.len() || ops[at].1 != given.answer {
                return false;
            }
            at += 1;
        }
    }
    at == ops.len()
}
