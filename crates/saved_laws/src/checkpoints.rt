//! What a member has written of its rows, and which epochs it saves.
ghost use Rattle.saved_laws.specs.Behind.{SavedBeforeIsDurable};
ghost use Rattle.saved_laws.specs.Checkpoints.{SavedAreOfLife, WalkedCheckpointsStand};

use journal_laws::{journals_have_records, local_checkpoints_stand, walks_are_followed};

/// What a member has written once a walk has passed all rows is a checkpoint, and stands for all that was
/// before.
pub fn walked_checkpoints_stand()
    ensures { WalkedCheckpointsStand }
{
    local_checkpoints_stand();
    journals_have_records();
    walks_are_followed();
}

/// What a member's rows have noted as saved, beyond the epoch from which the life started, is of the life.
pub fn saved_are_of_the_life()
    ensures { SavedAreOfLife }
{}

/// What a member's rows had noted as saved before they note a later epoch is durable.
pub fn saved_before_is_durable()
    ensures { SavedBeforeIsDurable }
{}
