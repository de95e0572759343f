//! What clients are told of the end of their transactions.
ghost use Rattle.outcome_laws.specs.Outcomes.{CommitsWereDecided, NoneThatWasDownWasDecided};
ghost use Rattle.outcome_laws.specs.Outcomes.{TransactionsAreReportedOnce};

/// The end of a transaction is reported once at most.
#[tactic(auto, using(crate::proofs::once::ReportedOnce::reported_once))]
pub fn transactions_are_reported_once()
    ensures { TransactionsAreReportedOnce }
{}

/// Whoever is reported committed was decided, in the epoch that is reported.
#[tactic(auto, using(crate::proofs::knowledge::CommitsWereDecided::commits_were_decided))]
pub fn commits_were_decided()
    ensures { CommitsWereDecided }
{}

/// Whoever is reported aborted since the cluster is down was never decided, nor is later.
pub fn none_that_was_down_was_decided()
    ensures { NoneThatWasDownWasDecided }
{}
