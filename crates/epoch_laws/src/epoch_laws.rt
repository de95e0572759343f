//! Epochs in runs of the machine that fails.
ghost use Rattle.epoch_laws.specs.Falls.{EpochsNeverFall, EpochsOfHistoriesNeverFall};
ghost use Rattle.epoch_laws.specs.Stand.{EpochsStand};

/// At each moment, in the order of views, the full members of the current view give one epoch, or have
/// prepared for the next one or gone on to it, and its president and the signals on their way know that
/// rightly.
#[tactic(auto, using(crate::proofs::StandAll::epochs_stand))]
pub fn epochs_stand()
    ensures { EpochsStand }
{}

/// Epochs never fall along the decisions of right logs, in their order, nor along the history.
pub fn epochs_never_fall()
    ensures decisions { EpochsNeverFall }
    ensures history { EpochsOfHistoriesNeverFall }
{}
