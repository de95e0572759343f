//! The history of a cut.
use crate::decisions::Decision;
use crate::facts::Facts;
use crate::law::Fault;
use sig_core::{Answer, Entry, HostId, NoMemory, Op, Seq, TxId};
use std::alloc::Global;

// Where an entry stands in the history, and its place among the decided transactions.
#[derive(Clone, Copy, PartialEq, Eq, PartialOrd, Ord)]
struct Order {
    view: u64,
    stamp: u64,
    host: u32,
    at: usize,
}

/// The history of a cut: what was decided in it and took effect, by view, stamp and host.
///
/// # Errors
/// `NoMemory`.
pub fn history_of(alloc: Global, facts: &Facts) -> Result<Vec<Entry>, Fault> {
    let orders = orders_of(alloc, facts)?;
    entries_of(alloc, facts, orders.as_slice())
}

// Where the entries stand, in their order.
fn orders_of(alloc: Global, facts: &Facts) -> Result<Vec<Order>, NoMemory> {
    let mut orders = Vec::new(alloc);
    for at in 0..facts.decisions.decided.len() {
        if let Some(order) = order_at(facts, at) {
            orders.push(order)?;
        }
    }
    orders.sort()?;
    Ok(orders)
}

// Where the decided transaction at this place stands, if the history has it.
fn order_at(facts: &Facts, at: usize) -> Option<Order> {
    let (tx, decision) = facts.decisions.decided.get_index(at)?;
    if is_kept(facts, tx) {
        Some(order_of(decision, at))
    } else {
        None
    }
}

fn order_of(decision: &Decision, at: usize) -> Order {
    Order {
        view: decision.moment.view,
        stamp: decision.moment.stamp,
        host: decision.moment.host,
        at,
    }
}

/// Whether the history has a decided transaction: one that writes where a row of it was applied, and
/// another one where it was reported committed.
pub fn is_kept(facts: &Facts, tx: &TxId) -> bool {
    if facts.decisions.writes(tx) {
        facts.decisions.applied(tx).is_some()
    } else {
        facts.client.is_committed(tx)
    }
}

fn entries_of(alloc: Global, facts: &Facts, orders: &[Order]) -> Result<Vec<Entry>, Fault> {
    let mut entries = Vec::new(alloc);
    for order in orders {
        if let Some((tx, decision)) = facts.decisions.decided.get_index(order.at) {
            add_entry(alloc, facts, &mut entries, tx, decision)?;
        }
    }
    Ok(entries)
}

fn add_entry(
    alloc: Global,
    facts: &Facts,
    entries: &mut Vec<Entry>,
    tx: &TxId,
    decision: &Decision,
) -> Result<(), NoMemory> {
    let ops = ops_of(alloc, facts, tx)?;
    entries.push(entry_of(tx, decision, ops))?;
    Ok(())
}

fn entry_of(tx: &TxId, decision: &Decision, ops: Seq<(Op, Answer)>) -> Entry {
    Entry {
        tx: *tx,
        view: decision.moment.view,
        stamp: decision.moment.stamp,
        host: HostId(decision.moment.host),
        epoch: decision.epoch,
        ops,
    }
}

// The operations of a transaction; none where no epoch was asked for.
fn ops_of(alloc: Global, facts: &Facts, tx: &TxId) -> Result<Seq<(Op, Answer)>, NoMemory> {
    let Some(ops) = facts.decisions.ops_of(tx) else {
        return Ok(Seq::new(alloc));
    };
    let copied = Vec::from_slice(alloc, ops.as_slice())?;
    Ok(Seq::from_vec(copied))
}
