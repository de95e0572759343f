//! What is proved of quiet worlds.
ghost use Rattle.answer_laws.specs.Answered.{EachAskedWhereOperating, EachAsksWhereOperating};
ghost use Rattle.answer_laws.specs.Answered.{EachClosedWhereCommitting, EachHasCoordinator, EachIsAnswered};
ghost use Rattle.answer_laws.specs.Answered.{EachIsNumbered, EachIsKeptByCoordinator, EachOperationIsQueued};
ghost use Rattle.answer_laws.specs.Answered.{EachOperationWaits, NoAbortIsAwaited, NoBeginIsLost, NoCommitIsAwaited};
ghost use Rattle.answer_laws.specs.Answered.{NoEpochIsAwaited};
ghost use Rattle.answer_laws.specs.Sample.{SampleIsQuiet};

/// When nothing is under way, whether a transaction begins is answered.
#[tactic(auto, using(crate::proofs::Begins::no_begin))]
pub fn no_begin_is_lost()
    ensures { NoBeginIsLost }
{}

/// When nothing is under way, each transaction whose end isn't reported is one of its coordinator.
pub fn each_has_a_coordinator()
    ensures { EachHasCoordinator }
{}

/// When nothing is under way, each operation that a coordinator's transaction has unanswered waits at a node.
pub fn each_operation_waits()
    ensures { EachOperationWaits }
{}

/// When nothing is under way, a transaction that has an operation unanswered at its coordinator is one whose operation
/// was sent: where a transaction takes commands, or its commit was asked for, nothing is asked.
pub fn each_asks_where_operating()
    ensures { EachAsksWhereOperating }
{}

/// When nothing is under way, no coordinator waits for the keys of a transaction to be committed.
#[tactic(auto, using(crate::proofs::Commits::no_commit))]
pub fn no_commit_is_awaited()
    ensures { NoCommitIsAwaited }
{}

/// When nothing is under way, no transaction waits for its epoch.
#[tactic(auto, using(crate::proofs::Verified::no_epoch))]
pub fn no_epoch_is_awaited()
    ensures { NoEpochIsAwaited }
{}

/// When nothing is under way, no transaction that has no operation unanswered is being aborted.
#[tactic(auto, using(crate::proofs::Aborts::no_abort))]
pub fn no_abort_is_awaited()
    ensures { NoAbortIsAwaited }
{}

/// When nothing is under way, a transaction whose operation was sent has it unanswered at its coordinator, where that
/// has the transaction open.
#[tactic(auto, using(crate::proofs::Heeded::asked_where_operating))]
pub fn each_operation_is_asked()
    ensures { EachAskedWhereOperating }
{}

/// When nothing is under way, a transaction whose commit was asked for isn't open at its coordinator.
#[tactic(auto, using(crate::proofs::Heeded::closed_where_committing))]
pub fn each_commit_is_heard()
    ensures { EachClosedWhereCommitting }
{}

/// When nothing is under way, each transaction that has begun is known by its number.
#[tactic(auto, using(crate::proofs::Heeded::each_numbered))]
pub fn each_is_numbered()
    ensures { EachIsNumbered }
{}

/// When nothing is under way, each operation that a coordinator's transaction has unanswered waits in the queue of a
/// lock.
pub fn each_operation_is_queued()
    ensures { EachOperationIsQueued }
{}

/// When nothing is under way, each transaction whose end isn't reported takes operations, and none is unanswered, or it
/// has an operation that waits in the queue of a lock.
#[tactic(auto, using(crate::proofs::Answers::each_answered))]
pub fn each_is_answered()
    ensures { EachIsAnswered }
{}

/// All that together, of each transaction whose end isn't reported.
#[tactic(auto, using(crate::proofs::Serves::each_served))]
pub fn each_is_kept_by_its_coordinator()
    ensures { EachIsKeptByCoordinator }
{}

/// There are quiet logs with a transaction whose end isn't reported.
#[tactic(auto, using(crate::proofs::SampleQuiet::sample_quiet))]
pub fn quiet_logs_have_transactions()
    ensures { SampleIsQuiet }
{}
