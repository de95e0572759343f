//! What a local checkpoint is good for, whatever goes on meanwhile.
ghost use Rattle.local_ckpt.specs.Laws.{CheckpointsRestore, OrderlyRowsStaySo, PiecesLieInOrder};
ghost use Rattle.local_ckpt.specs.Locking.{WalksMayBegin};

use lcp_store::checkpoints_are_read;

/// A law, which does nothing: rows stay orderly, whatever is put, prepared, committed, given up and done
/// with.
#[tactic(auto, using(crate::proofs::LawLemmas::orderly))]
pub fn orderly_rows_stay_so()
    ensures { OrderlyRowsStaySo }
{}

/// A law, which does nothing: the pieces of a walk lie one behind the other in its file, and are as many
/// bytes as it says.
pub fn pieces_lie_in_order()
    ensures { PiecesLieInOrder }
{}

/// A law: the pieces of a walk that has passed all are a checkpoint, and its rows, with the records of
/// the log behind them, are just those that were committed up to an epoch, whichever that is from the
/// checkpoint's on.
pub fn checkpoints_restore()
    ensures { CheckpointsRestore }
{
    checkpoints_are_read();
}

/// A law, which does nothing: where rows are locked while an image of them is prepared, a walk may begin at
/// any moment, with any position from which on the log has the prepare of what is prepared.
pub fn walks_may_begin()
    ensures { WalksMayBegin }
{}
