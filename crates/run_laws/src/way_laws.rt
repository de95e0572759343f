//! Which way a transaction goes, told from what is in transit.
ghost use Rattle.run_laws.specs.Circle.{WhoAsksWaits};
ghost use Rattle.run_laws.specs.Decided.{CommitsAreDecided};
ghost use Rattle.run_laws.specs.GivenUp.{AbortsAreOfGivenUp, CommitsAreOfCarriedOut, CompletionsAreOfCarriedOut};
ghost use Rattle.run_laws.specs.GivenUp.{KeptAreNotGivenUp, NoneIsBoth};
ghost use Rattle.run_laws.specs.Transit.{RunsHaveTransit};

/// After each run some signals are in transit: of each link those that were sent on it and weren't
/// taken.
#[tactic(auto, using(crate::proofs::transit::Runs::runs_have_transit))]
pub fn runs_have_transit()
    ensures { RunsHaveTransit }
{}

/// No transaction is both carried out and given up. Rows are committed and completed of those that
/// are carried out, and aborted of those that are given up; and what was applied, or reported
/// committed, isn't given up.
pub fn transactions_go_one_way()
    ensures apart { NoneIsBoth }
    ensures aborts { AbortsAreOfGivenUp }
    ensures commits { CommitsAreOfCarriedOut }
    ensures completions { CompletionsAreOfCarriedOut }
    ensures kept { KeptAreNotGivenUp }
{}

/// What asks for an epoch is of a transaction that waits for it with these operations, unless that
/// is given up.
#[tactic(auto, using(crate::proofs::causes::WhoAsks::who_asks_waits))]
pub fn who_asks_waits()
    ensures { WhoAsksWaits }
{}

/// Where a commit of a row comes, the node of the coordinator has decided the transaction.
#[tactic(auto, using(crate::proofs::causes::Decided::commits_are_decided))]
pub fn commits_are_decided()
    ensures { CommitsAreDecided }
{}
