//! One random run of a local checkpoint, from its seed.

use crate::dice::Dice;
use crate::walks::fault::RunFault;
use crate::walks::node::Node;
use crate::walks::plain::{compare, rows_up_to};
use frag_store::Store;
use lcp_store::rows_in;
use local_ckpt::Ckpt;
use redo_log::replay_bytes;
use row_map::RowMap;
use sig_core::{Finished, ReadFault, Walk};
use std::alloc::Global;

/// How many keys there are at most.
const KEYS: u64 = 900;
/// How often something goes on before a walk, between two of its steps, and behind it, at most.
const CHANGES: u64 = 250;

/// Passes a walk over rows that change, and holds what it wrote against what was committed, for each
/// epoch from that of the checkpoint on.
///
/// # Errors
/// What is wrong, or `NoMemory`.
pub fn run_one(alloc: Global, seed: u64) -> Result<(), RunFault> {
    let mut dice = Dice::new(seed);
    let keys = dice.roll(KEYS);
    let mut node = Node::new(alloc, &mut dice, keys)?;
    pass(alloc, &mut dice, &mut node)
}

// The walk, with what goes on before it and behind it.
fn pass(alloc: Global, dice: &mut Dice, node: &mut Node) -> Result<(), RunFault> {
    go_on(dice, node)?;
    let mut written = Vec::new(alloc);
    let finished = walk(alloc, dice, node, &mut written)?;
    go_on(dice, node)?;
    check_epochs(alloc, node, &finished, &written)
}

// The epoch of the checkpoint, the next one, and the last.
fn check_epochs(
    alloc: Global,
    node: &Node,
    finished: &Finished,
    written: &[u8],
) -> Result<(), RunFault> {
    for more in 0..2 {
        let epoch = finished.epoch.saturating_add(more);
        check(alloc, node, finished, written, epoch)?;
    }
    check(alloc, node, finished, written, u64::MAX)
}

fn go_on(dice: &mut Dice, node: &mut Node) -> Result<(), RunFault> {
    for _ in 0..dice.roll(CHANGES) {
        node.change(dice)?;
    }
    Ok(())
}

// Walks over the rows, which change between the steps.
fn walk(
    alloc: Global,
    dice: &mut Dice,
    node: &mut Node,
    written: &mut Vec<u8>,
) -> Result<Finished, RunFault> {
    let mut ckpt = Ckpt::start(alloc, 2, node.oldest(), node.greatest)?;
    for _ in 0..KEYS {
        if !take_piece(&mut ckpt, &node.rows, written)? {
            return Ok(ckpt.finish());
        }
        go_by(dice, node, &mut ckpt)?;
    }
    Err(RunFault::Pieces)
}

// Takes the next piece of the walk, and says whether there was one.
fn take_piece(ckpt: &mut Ckpt, rows: &Store, written: &mut Vec<u8>) -> Result<bool, RunFault> {
    let Some(piece) = ckpt.step(rows)? else {
        return Ok(false);
    };
    let bytes = piece.bytes.as_slice();
    if piece.file != 2 || piece.at != written.len() as u64 || bytes.is_empty() {
        return Err(RunFault::Pieces);
    }
    written
        .extend_from_slice(bytes)
        .map_err(|_| RunFault::NoMemory)?;
    Ok(true)
}

// Something goes on at rows that the walk has passed or comes to.
fn go_by(dice: &mut Dice, node: &mut Node, ckpt: &mut Ckpt) -> Result<(), RunFault> {
    for _ in 0..dice.roll(CHANGES) {
        let before = node.commits.len();
        node.change(dice)?;
        if let Some(commit) = node.commits.get(before) {
            ckpt.committed(commit.epoch);
        }
    }
    Ok(())
}

// The rows of the checkpoint, with the log from its position on, are those that were committed up to the
// epoch.
fn check(
    alloc: Global,
    node: &Node,
    finished: &Finished,
    written: &[u8],
    epoch: u64,
) -> Result<(), RunFault> {
    if finished.size != written.len() as u64 {
        return Err(RunFault::Pieces);
    }
    let mut rows = read(alloc, finished, written)?;
    let from = finished.from as usize;
    if from > node.bytes.len() || node.bytes.len() as u64 > 1 << 32 {
        return Err(RunFault::Damaged);
    }
    match replay_bytes(
        alloc,
        &mut rows,
        0,
        finished.from,
        &node.bytes[from..],
        epoch,
    ) {
        Ok(()) => {}
        Err(ReadFault::NoMemory) => return Err(RunFault::NoMemory),
        Err(_) => return Err(RunFault::Damaged),
    }
    let plain = rows_up_to(alloc, &node.commits, epoch)?;
    compare(&rows, &plain, &node.keys)
}

fn read(alloc: Global, finished: &Finished, written: &[u8]) -> Result<RowMap, RunFault> {
    match rows_in(alloc, finished.file, finished.epoch, written) {
        Ok(rows) => Ok(rows),
        Err(ReadFault::NoMemory) => Err(RunFault::NoMemory),
        Err(_) => Err(RunFault::Damaged),
    }
}
