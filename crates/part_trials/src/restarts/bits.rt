//! Each bit of what stands on a node's disk is flipped in turn.
use crate::restarts::flipped::{Reach, is_within, reach_of};
use crate::restarts::layout::{Layout, Piece};
use crate::restarts::pair::Pair;
use crate::restarts::restart::restore_pair;
use crate::restarts::trouble::Trouble;
use sig_core::RestartFault;
use std::alloc::Global;
use sys_restart::Restored;

/// What a restart makes of a flipped bit.
#[derive(Drop)]
enum Reading {
    /// It names the damage, or the shape.
    Named,
    /// It gives the rows that it should.
    Harmless,
    /// It reads another number or another word: nothing tells these from right ones.
    Other(Restored),
}

/// A byte of a layout, by the number of its piece and its place there, and bits of it.
#[derive(Clone, Copy)]
struct Flip {
    piece: usize,
    at: usize,
    bits: u8,
}

/// Flips these bits of each byte of the disk of node 1 in turn, and answers how many of them are named. Only those of
/// numbers and of words, and of gates, masks, files and parities, may give another restart: one that the slots
/// have with the other number, or one in which the row of the word alone is another.
///
/// # Errors
/// One that gives other rows.
pub fn flip_all(alloc: Global, bits: u8) -> Result<u64, Trouble> {
    let mut pair = Pair::new(alloc, false)?;
    let mut named = 0u64;
    for piece in 0..pair.layouts[0].pieces.len() {
        named = named.saturating_add(flip_piece(alloc, &mut pair, piece, bits)?);
    }
    Ok(named)
}

fn flip_piece(alloc: Global, pair: &mut Pair, piece: usize, bits: u8) -> Result<u64, Trouble> {
    let mut named = 0u64;
    for at in 0..size_of(&pair.layouts[0], piece) {
        if flip_one(alloc, pair, Flip { piece, at, bits })? {
            named = named.saturating_add(1);
        }
    }
    Ok(named)
}

fn size_of(layout: &Layout, piece: usize) -> usize {
    match layout.pieces.get(piece) {
        Some(piece) => piece.bytes.len(),
        None => 0,
    }
}

// Flips a byte, and flips it back. Whether a restart named it in between.
fn flip_one(alloc: Global, pair: &mut Pair, flip: Flip) -> Result<bool, Trouble> {
    let reach = reach_in(&pair.layouts[0], flip);
    turn(&mut pair.layouts[0], flip);
    let reading = read(alloc, pair)?;
    turn(&mut pair.layouts[0], flip);
    judge(alloc, &reading, reach)
}

fn reach_in(layout: &Layout, flip: Flip) -> Reach {
    match layout.pieces.get(flip.piece) {
        Some(piece) => reach_of(piece, flip.at, flip.bits),
        None => Reach::Nothing,
    }
}

fn turn(layout: &mut Layout, flip: Flip) {
    if let Some(piece) = layout.pieces.get_mut(flip.piece) {
        turn_in(piece, flip);
    }
}

fn turn_in(piece: &mut Piece, flip: Flip) {
    if let Some(byte) = piece.bytes.get_mut(flip.at) {
        *byte ^= flip.bits;
    }
}

// What is read of the two disks.
fn read(alloc: Global, pair: &Pair) -> Result<Reading, Trouble> {
    let mut disks = pair.disks()?;
    match restore_pair(alloc, &mut disks) {
        Ok(found) => reading_of(pair, found),
        Err(Trouble::Fault(fault)) if is_name(&fault) => Ok(Reading::Named),
        Err(trouble) => Err(trouble),
    }
}

fn is_name(fault: &RestartFault) -> bool {
    match fault {
        RestartFault::Damaged { node, .. } => *node <= 2,
        RestartFault::OtherShape { .. } => true,
        _ => false,
    }
}

fn reading_of(pair: &Pair, found: Restored) -> Result<Reading, Trouble> {
    match pair.check(&found, 1, 1) {
        Ok(()) => Ok(Reading::Harmless),
        Err(Trouble::Other) => Ok(Reading::Other(found)),
        Err(trouble) => Err(trouble),
    }
}

// Whether a flipped bit of this reach is named.
fn judge(alloc: Global, reading: &Reading, reach: Reach) -> Result<bool, Trouble> {
    match reading {
        Reading::Named => Ok(true),
        Reading::Harmless => Ok(false),
        Reading::Other(found) => {
            if is_within(alloc, found, reach)? {
                Ok(false)
            } else {
                Err(Trouble::Other)
            }
        }
    }
}
