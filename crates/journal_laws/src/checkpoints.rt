//! What a local checkpoint stands for.
ghost use Rattle.journal_laws.specs.Checkpoints.{LocalCheckpointsStand};

use lcp_store::checkpoints_are_read;

/// A law: a local checkpoint that was written while transactions went on stands for the rows at first and for
/// the records before its position.
pub fn local_checkpoints_stand()
    ensures { LocalCheckpointsStand }
{
    checkpoints_are_read();
}
