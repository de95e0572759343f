//! Replaying a list of entries on one table.
ghost use Rattle.std.specs.Prelude.{◌≡◌, ◌↔◌, IsTrue, IfOk, IfErr, OnOk};
ghost use Rattle.serial_model.specs.Legal.{AreAnswered, IsLegal, IsReplayFault, IsOpsFault, after_ops, fault_at, fold};
ghost use Rattle.serial_model.specs.Legal.{rows_of};

use crate::do_op;
use sig_core::{Answer, Entry, Key, NoMemory, Op, Table, Value};
use std::alloc::Global;

/// Why a replay gave no table.
#[derive(Clone, Copy, Debug, PartialEq, Eq)]
pub enum ReplayFault {
    /// The first stored answer that isn't the one that its operation gets. Places count from 0:
    /// that of the entry in the list, and that of the operation in the entry.
    Differs {
        entry: usize,
        op: usize,
        stored: Answer,
        found: Answer,
    },
    NoMemory,
}

/// Why the operations of one entry weren't all replayed.
#[derive(Clone, Copy)]
enum OpsFault {
    Differs {
        op: usize,
        stored: Answer,
        found: Answer,
    },
    NoMemory,
}

/// Puts the start rows into a fresh table, in order, then performs the operations of entry after
/// entry, and compares each stored answer with the one that the operation gets. Gives the table
/// after all of them.
///
/// # Errors
/// `Differs` at the first stored answer that isn't the one found, or `NoMemory`.
pub fn replay(
    alloc: Global,
    start: &[(Key, Value)],
    entries: &[Entry],
) -> Result<Table, ReplayFault>
    ensures legal { OnOk result (IsLegal (rows_of start.now) entries.now) }
    ensures rows { IfOk result (λ table. table ≡ fold (rows_of start.now) entries.now) }
    ensures differs { IfErr result (λ fault. IsReplayFault (rows_of start.now) entries.now fault) }
{
    let Ok(mut table) = start_table(alloc, start) else {
        return Err(ReplayFault::NoMemory);
    };
    for (at, entry) in entries.iter().enumerate() {
        match replay_ops(&mut table, entry.ops.as_slice()) {
            Ok(()) => {}
            Err(fault) => return Err(fault_at(at, &fault)),
        }
    }
    Ok(table)
}

/// A fault in the entry at this place.
fn fault_at(entry: usize, fault: &OpsFault) -> ReplayFault
    ensures { result ≡ fault_at entry fault.now }
{
    match fault {
        OpsFault::Differs { op, stored, found } => ReplayFault::Differs {
            entry,
            op: *op,
            stored: *stored,
            found: *found,
        },
        OpsFault::NoMemory => ReplayFault::NoMemory,
    }
}

/// A table of the start rows.
///
/// # Errors
/// `NoMemory`.
fn start_table(alloc: Global, start: &[(Key, Value)]) -> Result<Table, NoMemory>
    ensures { IfOk result (λ table. table ≡ rows_of start.now) }
{
    let mut table = Table::new(alloc);
    for row in start {
        table.insert(row.0, row.1)?;
    }
    Ok(table)
}

/// Performs the operations, as long as each gets the answer that is stored with it.
///
/// # Errors
/// `Differs` at the first that doesn't, or `NoMemory`.
fn replay_ops(table: &mut Table, ops: &[(Op, Answer)]) -> Result<(), OpsFault>
    ensures answered { OnOk result (AreAnswered table.old ops.now) }
    ensures rows { OnOk result (table.new ≡ after_ops table.old ops.now) }
    ensures fault { IfErr result (λ fault. IsOpsFault table.old ops.now fault) }
{
    for (at, op) in ops.iter().enumerate() {
        let Ok(found) = do_op(table, &op.0) else {
            return Err(OpsFault::NoMemory);
        };
        if !is_same(&op.1, &found) {
            return Err(OpsFault::Differs {
                op: at,
                stored: op.1,
                found,
            });
        }
    }
    Ok(())
}

/// Whether two answers are the same.
fn is_same(one: &Answer, other: &Answer) -> bool
    ensures { IsTrue result ↔ (one.now ≡ other.now) }
{
    one == other
}
