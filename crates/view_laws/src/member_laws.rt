//! What the membership of one node, and the arbitrator, keep by themselves of what ballots owe,
//! whatever signals come and whatever views are installed.
ghost use Rattle.view_laws.specs.Grants.{GrantsStandBehindOneAnother};
ghost use Rattle.view_laws.specs.Kept.{EachPromiseIsAskedFor, EachProposalIsRight, PromisesRise};
ghost use Rattle.view_laws.specs.Kept.{PromisesStandBehindOneAnother, ProposalsRise, WhatIsConfirmedWasPromised};

/// The numbers of last promises rise, and the installed view never has a greater one.
pub fn promises_rise()
    ensures { PromisesRise }
{}

/// A set that is promised at a signal is a part of the last promise, or the installed view, if that
/// has the number of the last promise, with one member joined or promoted.
#[tactic(auto, using(crate::proofs::memberships::Promises::each_asked))]
pub fn each_promise_is_asked_for()
    ensures { EachPromiseIsAskedFor }
{}

/// So each promise stands rightly behind the one before.
#[tactic(auto, using(crate::proofs::memberships::Promises::stand_behind))]
pub fn promises_stand_behind_one_another()
    ensures { PromisesStandBehindOneAnother }
{}

/// Each proposal is viable, and made of the view that was installed then.
#[tactic(auto, using(crate::proofs::memberships::Proposals::each_right))]
pub fn each_proposal_is_right()
    ensures { EachProposalIsRight }
{}

/// The numbers of proposals rise.
#[tactic(auto, using(crate::proofs::memberships::Proposals::rise))]
pub fn proposals_rise()
    ensures { ProposalsRise }
{}

/// What is confirmed was promised before, at a signal.
pub fn what_is_confirmed_was_promised()
    ensures { WhatIsConfirmedWasPromised }
{}

/// Each grant is of members of the one before, but for who joins, and has no lesser number.
#[tactic(auto, using(crate::proofs::memberships::ArbitratorGrants::grants_stand))]
pub fn grants_stand_behind_one_another()
    ensures { GrantsStandBehindOneAnother }
{}
