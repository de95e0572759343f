//! What is true of the membership of a node, whatever signals come and whatever views are
//! installed.
ghost use Rattle.qmgr_block.specs.Laws.{LastPromiseIsNotBelowTheView, NumbersNeverFall, ProposalsAreNew};
ghost use Rattle.qmgr_block.specs.Laws.{StartsAreNotForgotten};
ghost use Rattle.qmgr_block.specs.Words.{QmgrKeepsToItsWords};

/// The number of the last promise, and the greatest number proposed, never fall.
#[tactic(auto, using(crate::proofs::LawLemmas::never_fall))]
pub fn numbers_never_fall()
    ensures { NumbersNeverFall }
{}

/// Each request for a promise names a number above all that the node has proposed or promised, and
/// that counts as proposed from then on: so no number is proposed twice.
#[tactic(auto, using(crate::proofs::LawLemmas::are_new))]
pub fn proposals_are_new()
    ensures { ProposalsAreNew }
{}

/// A start that has closed is never forgotten, nor one that was in a promise or a view.
#[tactic(auto, using(crate::proofs::LawLemmas::not_forgotten))]
pub fn starts_are_not_forgotten()
    ensures { StartsAreNotForgotten }
{}

/// The last promise never has a lesser number than the installed view.
#[tactic(auto, using(crate::proofs::LawLemmas::not_below))]
pub fn last_promise_is_not_below_the_view()
    ensures { LastPromiseIsNotBelowTheView }
{}

/// It sends and marks nothing but its words and marks, whatever it takes and whatever view is
/// installed.
#[tactic(auto, using(crate::proofs::Walk::qmgr_words))]
pub fn keeps_to_its_words()
    ensures { QmgrKeepsToItsWords }
{}
