//! Why transactions are aborted, and why they don't begin.
ghost use Rattle.cause_laws.specs.Causes.{AbortsAreCaused};
ghost use Rattle.cause_laws.specs.Reasons.{OnlyLongWaitsExpire};
ghost use Rattle.cause_laws.specs.Sample.{SampleIsAborted};
ghost use Rattle.cause_laws.specs.TurnedAway.{RepliesAreCaused, RepliesAreTold, TurnedAwayAreTooMany};
ghost use Rattle.cause_laws.specs.Waited.{TimeOutsTakeEightRounds, WaitsHaveTheirRounds};

/// The rows of a node mark a wait to have stood too long only where it stands in the queue of its
/// key, and has stood there for eight rounds, that of the signal included.
#[tactic(auto, using(crate::proofs::RowReasons::long_waits))]
pub fn only_long_waits_expire()
    ensures { OnlyLongWaitsExpire }
{}

/// Whoever waits in the queue of a key, after any log of a host, was asked for at a step of it, and
/// at least as many rounds of time have come since as the queue counts.
#[tactic(auto, using(crate::proofs::Waited::have_rounds))]
pub fn waits_have_their_rounds()
    ensures { WaitsHaveTheirRounds }
{}

/// Where a host marks a wait to have stood too long, that was asked for at a step of its log, and at
/// least eight rounds of time have come since, that of the step included.
#[tactic(auto, using(crate::proofs::Waited::take_eight_rounds))]
pub fn time_outs_take_eight_rounds()
    ensures { TimeOutsTakeEightRounds }
{}

/// Where the abort of a transaction was reported in a closed cut, its cause is in the cut. A time-out,
/// a full journal and a full table: the rows of a node refused it so, and in their state before that
/// step a wait of it had stood for eight rounds, the journal had just these bytes used and reserved
/// and no room for those of an image, or all places were taken. A wish: before the report the client
/// asked for the abort, or didn't wait any longer. There is no other.
pub fn aborts_are_caused()
    ensures { AbortsAreCaused }
{}

/// Where the client is told in a closed cut that a transaction doesn't begin, its coordinator was
/// asked for one of this name, and had too many, or no number left.
pub fn turned_away_are_too_many()
    ensures { TurnedAwayAreTooMany }
{}

/// The API replies that too many transactions are open only upon that signal, and an abort only upon
/// the report of one, with its cause; and it takes back no reply.
#[tactic(auto, using(crate::proofs::ApiReplies::replies_told))]
pub fn replies_are_told()
    ensures { RepliesAreTold }
{}

/// Of all replies in a closed cut each that tells of an abort has its cause in the cut, and each that
/// tells that too many are open has a coordinator there that had too many.
#[tactic(auto, using(crate::proofs::Causes::replies_caused))]
pub fn replies_are_caused()
    ensures { RepliesAreCaused }
{}

/// There is a closed cut in which an abort was reported, at the client's request.
#[tactic(auto, using(crate::proofs::SampleAborted::sample_aborted))]
pub fn closed_cuts_have_aborts()
    ensures { SampleIsAborted }
{}
