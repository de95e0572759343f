//! What right logs have of transactions.
ghost use Rattle.commit_laws.specs.Cuts.{AbortsTakeNone, CommitsTakeEffect, HistoriesAreLegal, RecordsAgree};
ghost use Rattle.commit_laws.specs.Cuts.{RestingRowsFollow};

/// Each answer in the history of right logs is the one that the rows give.
#[tactic(auto, using(crate::proofs::led::CutLaws::histories_legal))]
pub fn histories_are_legal()
    ensures { HistoriesAreLegal }
{}

/// Of each key at rest each live replica has the row that the history leaves.
#[tactic(auto, using(crate::proofs::led::CutLaws::resting_rows))]
pub fn resting_rows_follow()
    ensures { RestingRowsFollow }
{}

/// Whoever was reported committed is in the history, with the epoch that was told.
#[tactic(auto, using(crate::proofs::led::CutLaws::commits_effective))]
pub fn commits_take_effect()
    ensures { CommitsTakeEffect }
{}

/// Whoever was reported aborted isn't in the history.
pub fn aborts_take_none()
    ensures { AbortsTakeNone }
{}

/// Members that have a record of a transaction on a key have the same image of it, unless an operation of
/// it on that key is unanswered, or it takes effect in no later cut.
pub fn records_agree()
    ensures { RecordsAgree }
{}
