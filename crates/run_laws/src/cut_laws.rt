//! What holds of every closed cut of right logs.
ghost use Rattle.run_laws.specs.Laws.{CommitsAreOfDecided, EpochsNeverFall, GreatestViewIsFirst, GreatestViewIsViable};
ghost use Rattle.run_laws.specs.Laws.{HistoriesAreStrict, KeysMakeSerial};

/// Epochs never fall along the history of a closed cut.
#[tactic(auto, using(crate::proofs::history::Epochs::epochs_ordered))]
pub fn epochs_never_fall()
    ensures { EpochsNeverFall }
{}

/// In a closed cut nobody has installed another view than the first one. That is viable, whatever
/// the shape of the cluster: it has a full member of each group.
pub fn greatest_view_is_viable()
    ensures first { GreatestViewIsFirst }
    ensures viable { GreatestViewIsViable }
{}

/// The history of a closed cut keeps to strict order: a transaction that was reported before
/// another one was asked for stands before it.
pub fn histories_are_strict()
    ensures { HistoriesAreStrict }
{}

/// In a closed cut a row is committed, at whatever place of its chain, for decided transactions
/// alone: the decision stands in the cut, with a lesser stamp.
pub fn commits_are_of_decided()
    ensures { CommitsAreOfDecided }
{}

/// A closed cut whose history is right for each key alone, and whose live replicas of each key at
/// rest have its row, is serial, whatever the shape of the cluster.
pub fn right_keys_make_cuts_serial()
    ensures { KeysMakeSerial }
{}
