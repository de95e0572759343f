//! The strict order of the history.
use crate::client::Client;
use crate::law::{Fault, Law};
use sig_core::{Entry, TxId};

/// Judges the order of the history: a transaction that was reported before another one was asked for
/// stands before it.
///
/// # Errors
/// `StrictOrder`, where it is broken.
pub fn judge_order(client: &Client, history: &[Entry]) -> Result<(), Fault> {
    // The latest stamp at which one of the entries so far was asked for.
    let mut latest = 0;
    for entry in history {
        if is_reported_before(client, &entry.tx, latest) {
            return Err(Fault::Broken(Law::StrictOrder));
        }
        latest = latest.max(client.asked_for(&entry.tx).unwrap_or(0));
    }
    Ok(())
}

fn is_reported_before(client: &Client, tx: &TxId, stamp: u64) -> bool {
    match client.reported.get(tx) {
        Some(report) => report.stamp < stamp,
        None => false,
    }
}
