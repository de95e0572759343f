//! What is true of all that a takeover sends, whatever signals come, in whatever order.
ghost use Rattle.takeover_block.specs.Laws.{AbortsWhatNobodyCommitted, CommitsWhatWasTold, GatheredStandInOrder};
ghost use Rattle.takeover_block.specs.Laws.{RulesWhenAllHaveEnded, TellsWhenAllHaveAnswered};
ghost use Rattle.takeover_block.specs.Words.{TakeoverKeepsToItsWords};

/// A transaction is committed, and told to the client as committed, only in an epoch that a member
/// told of it since the last order, before all members had ended.
#[tactic(auto, using(crate::proofs::LawLemmas::commits_told))]
pub fn commits_what_was_told()
    ensures { CommitsWhatWasTold }
{}

/// A transaction is aborted, and told to the client as aborted, only if no member told so that it is
/// committed.
#[tactic(auto, using(crate::proofs::LawLemmas::aborts_untold))]
pub fn aborts_what_nobody_committed()
    ensures { AbortsWhatNobodyCommitted }
{}

/// Nothing is sent along a chain or to the client before all members have ended.
#[tactic(auto, using(crate::proofs::LawLemmas::rules_last))]
pub fn rules_when_all_have_ended()
    ensures { RulesWhenAllHaveEnded }
{}

/// What is gathered stands in order of `TxId`, each transaction once. So they are ruled on in that
/// order, whichever was told of first.
#[tactic(auto, using(crate::proofs::OrderLaw::stand_in_order))]
pub fn gathered_stand_in_order()
    ensures { GatheredStandInOrder }
{}

/// The client is told that a transaction is committed only when since the last order as many
/// `Committed` of it came as keys were told of it, and that it is aborted only when as many `Aborted`
/// came as these keys have replicas in the view.
#[tactic(auto, using(crate::proofs::AnswerLaw::tells_last))]
pub fn tells_when_all_have_answered()
    ensures { TellsWhenAllHaveAnswered }
{}

/// Whatever a takeover takes, and whatever view is installed, it sends nothing but its own words, and
/// marks nothing.
#[tactic(auto, using(crate::proofs::Walk::takeover_words))]
pub fn keeps_to_its_words()
    ensures { TakeoverKeepsToItsWords }
{}
