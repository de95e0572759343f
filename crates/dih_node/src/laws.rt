//! What is true of the epochs that a node gives, whatever comes, in whatever order.
ghost use Rattle.dih_node.specs.Laws.{EpochsNeverFall, NoneIsGivenWhilePrepared, ReportsAreTrue};
ghost use Rattle.dih_node.specs.Words.{DihKeepsToItsWords};

/// The epochs that a node gives never fall, where each order to commit names a greater one to
/// follow.
#[tactic(auto, using(crate::proofs::EpochLemmas::never_fall))]
pub fn epochs_never_fall()
    ensures { EpochsNeverFall }
{}

/// No epoch is given while one is prepared, or a view is promised that isn't installed.
#[tactic(auto, using(crate::proofs::NoneLemmas::none_while_prepared))]
pub fn none_is_given_while_prepared()
    ensures { NoneIsGivenWhilePrepared }
{}

/// When a node reports the end of an epoch, it gives a greater one and counts no transaction with
/// that epoch or one before, where each order to commit names a greater one to follow.
#[tactic(auto, using(crate::proofs::ReportLemmas::reports_are_true))]
pub fn reports_are_true()
    ensures { ReportsAreTrue }
{}

/// Whatever signals come and whatever views are installed, the epochs of a node send their words
/// alone, and mark that they decide transactions.
#[tactic(auto, using(crate::proofs::Walk::dih_words))]
pub fn keeps_to_its_words()
    ensures { DihKeepsToItsWords }
{}
