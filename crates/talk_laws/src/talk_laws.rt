//! The conversation between a client and the coordinator of its transaction, and what the client is told of it.
ghost use Rattle.talk_laws.specs.Reports.{ReportsAreMarked};
ghost use Rattle.talk_laws.specs.Talks.{DecidedAsAskedAndTold};

/// A transaction that is decided has the operations that its client asked for, and the answers that the
/// client was told: all of them, in order, and no others.
#[tactic(auto, using(crate::proofs::Told::decided_as_told))]
pub fn decided_as_asked_and_told()
    ensures { DecidedAsAskedAndTold }
{}

/// The client is told just the ends that are marked, and the answers that it is told of, each under the
/// name of its transaction, and no more answers than it asked for.
#[tactic(auto, using(crate::proofs::Reports::reported))]
pub fn reports_are_marked()
    ensures { ReportsAreMarked }
{}
