//! What is owed to the client of a cluster that came to rest, and what is left of its transactions.
use crate::client::Client;
use crate::facts::Facts;
use crate::law::{Fault, Law};
use crate::logs::stops;
use crate::views::node_of;
use sig_core::{Life, LogStep, Mark, Outcome, TxId};

/// Judges a life that came to rest after its last requests, and more rounds than a wait may last: where
/// no host cut off another one, each operation that a coordinator took was answered, or its transaction
/// was reported aborted, each commit that it was asked for was reported, and no live node that goes on
/// holds a record of a transaction that was reported. (A node that was left out may stay: where all
/// others have stopped it isn't told any more.)
///
/// # Errors
/// The first of these laws that is broken.
pub fn judge_owed(life: &Life, facts: &Facts) -> Result<(), Fault> {
    if cuts(life) {
        return Ok(());
    }
    if owes_answers(&facts.client) || owes_ends(&facts.client) {
        return Err(Fault::Broken(Law::NothingOwed));
    }
    if holds_ended(life, facts) {
        return Err(Fault::Broken(Law::NothingLeft));
    }
    Ok(())
}

// Whether a live node that goes on holds a record of a transaction whose end was reported.
fn holds_ended(life: &Life, facts: &Facts) -> bool {
    for record in facts.records.held.as_slice() {
        if facts.client.reported.contains_key(&record.tx)
            && facts.views.is_live(node_of(record.host))
            && goes_on(life, record.host)
        {
            return true;
        }
    }
    false
}

// Whether the host hasn't stopped.
fn goes_on(life: &Life, host: u32) -> bool {
    match life.logs.as_slice().get(host as usize) {
        Some(log) => !log.steps.as_slice().iter().any(stops),
        None => false,
    }
}

// Whether a host cut off another one.
fn cuts(life: &Life) -> bool {
    for log in life.logs.as_slice() {
        if log.steps.as_slice().iter().any(cuts_off) {
            return true;
        }
    }
    false
}

fn cuts_off(step: &LogStep) -> bool {
    for mark in step.marks.as_slice() {
        if let Mark::CutOff { host: _ } = mark {
            return true;
        }
    }
    false
}

// Whether an operation of a transaction that wasn't aborted isn't answered.
fn owes_answers(client: &Client) -> bool {
    for asked in client.asked.as_slice() {
        if !is_aborted(client, &asked.tx)
            && answers(client, &asked.tx) < operations(client, &asked.tx)
        {
            return true;
        }
    }
    false
}

fn is_aborted(client: &Client, tx: &TxId) -> bool {
    match client.reported.get(tx) {
        Some(report) => match report.outcome {
            Outcome::Aborted(_) => true,
            _ => false,
        },
        None => false,
    }
}

fn operations(client: &Client, tx: &TxId) -> u64 {
    let mut count = 0u64;
    for asked in client.asked.as_slice() {
        if asked.tx == *tx {
            count = count.saturating_add(1);
        }
    }
    count
}

fn answers(client: &Client, tx: &TxId) -> u64 {
    let mut count = 0u64;
    for given in client.given.as_slice() {
        if given.tx == *tx {
            count = count.saturating_add(1);
        }
    }
    count
}

// Whether the end of a transaction that was to be committed or aborted isn't reported.
fn owes_ends(client: &Client) -> bool {
    for at in 0..client.ends.len() {
        if let Some((tx, _)) = client.ends.get_index(at) {
            if !client.reported.contains_key(tx) {
                return true;
            }
        }
    }
    false
}
