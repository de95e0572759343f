//! Decisions, and who knows and tells of them.
ghost use Rattle.outcome_laws.specs.Down.{NoDownIsTold};
ghost use Rattle.outcome_laws.specs.Know.{MomentsKnow};
ghost use Rattle.outcome_laws.specs.Outcomes.{DecisionsKeepStrictOrder, HistoriesKeepStrictOrder};
ghost use Rattle.outcome_laws.specs.Outcomes.{TransactionsAreDecidedOnce};

/// At each moment, in the order of views, whoever knows or tells that a transaction is committed knows
/// and tells the epoch in which it was decided; and each decision is of a transaction that its client
/// was told has begun.
#[tactic(auto, using(crate::proofs::knowledge::Moments::moments_know))]
pub fn tellers_know()
    ensures { MomentsKnow }
{}

/// No transaction is decided twice.
#[tactic(auto, using(crate::proofs::once::DecidedOnce::decided_once))]
pub fn transactions_are_decided_once()
    ensures { TransactionsAreDecidedOnce }
{}

/// What was reported before another transaction was asked for was decided before it, and stands before
/// it in the history.
pub fn decided_in_strict_order()
    ensures decisions { DecisionsKeepStrictOrder }
    ensures history { HistoriesKeepStrictOrder }
{}

/// No host is told that a transaction was aborted since the cluster is down: that only the client's own
/// side finds.
pub fn no_down_is_told()
    ensures { NoDownIsTold }
{}
