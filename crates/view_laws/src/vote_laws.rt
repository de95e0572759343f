//! Who sends the signals by which views are chosen: memberships and the arbitrator, and at what.
ghost use Rattle.view_laws.specs.Votes.{ArbitersFollowTheirSignals, ArbitersVote, HostsFollowTheirEvents};
ghost use Rattle.view_laws.specs.Votes.{MembershipsVote, OthersDontVote};

/// The main host of a member has the membership to which happened what its log says.
pub fn hosts_follow_their_events()
    ensures { HostsFollowTheirEvents }
{}

/// The shell's host has the arbitrator to which came what its log says.
#[tactic(auto, using(crate::proofs::follow::Hosts::arbiters_follow))]
pub fn arbiters_follow_their_signals()
    ensures { ArbitersFollowTheirSignals }
{}

/// Proposals, promises and questions are sent by memberships, at signals that they take.
pub fn memberships_vote()
    ensures { MembershipsVote }
{}

/// Grants are sent by the arbitrator, at a signal that it takes.
pub fn arbiters_vote()
    ensures { ArbitersVote }
{}

/// Nobody else sends any of these.
#[tactic(auto, using(crate::proofs::votes::Others::others_dont_vote))]
pub fn others_dont_vote()
    ensures { OthersDontVote }
{}
