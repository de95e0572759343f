//! What is proved of commands.
ghost use Rattle.command_laws.specs.Aborts.{ReadyAbortsAreAnswered, WaitingAbortsAreHeard};
ghost use Rattle.command_laws.specs.Alone.{LoneOperationsAreAnswered};
ghost use Rattle.command_laws.specs.Living.{RepliesAreOfTheLiving};
ghost use Rattle.command_laws.specs.Quietly.{NoAbortWaits};
ghost use Rattle.command_laws.specs.Sample.{SampleIsServed};
ghost use Rattle.command_laws.specs.Answers.{CommitsComeTo, OperationsComeTo, RequestsAreAnswered};
ghost use Rattle.command_laws.specs.Served.{CommitsAreCommitted, EachIsHeldUp, HoldersAreTold, LoneAreCommitted};
ghost use Rattle.command_laws.specs.Served.{OperationsAreAnswered};

/// A commit of a transaction that takes commands ends in its being committed: the client is told so,
/// and the step that tells it is marked.
pub fn commits_are_committed()
    ensures { CommitsAreCommitted }
{}

/// An operation alone that is answered ends in its being committed.
pub fn lone_operations_are_committed()
    ensures { LoneAreCommitted }
{}

/// An operation of a transaction that takes commands is answered, or its transaction is aborted for
/// want of room or of time, or it waits for a lock.
pub fn operations_are_answered()
    ensures { OperationsAreAnswered }
{}

/// Each operation of a transaction with a name is turned down for the reason that the API's state
/// gives, or answered, or its transaction is aborted for want of room or of time, or it waits for a lock.
pub fn operations_come_to_something()
    ensures { OperationsComeTo }
{}

/// Each commit is turned down for the reason that the API's state gives, or reported.
#[tactic(auto, using(crate::proofs::operations::ComesTo::commits_come_to))]
pub fn commits_come_to_something()
    ensures { CommitsComeTo }
{}

/// An abort of a transaction that takes commands ends in its being aborted at the client's request.
pub fn aborts_are_answered()
    ensures { ReadyAbortsAreAnswered }
{}

/// An abort of a transaction whose operation waits ends in its being aborted at the client's request.
pub fn waiting_aborts_are_heard()
    ensures { WaitingAbortsAreHeard }
{}

/// An operation alone is answered, or its transaction is aborted for want of room or of time, or can't
/// begin since its coordinator has as many as it may have, or it waits for a lock.
pub fn lone_operations_are_answered()
    ensures { LoneOperationsAreAnswered }
{}

/// Where a command left something of its own unanswered, the two questions about it bring the name,
/// where it has one, of a transaction that holds the lock of a key for which the command waits.
pub fn holders_are_told()
    ensures { HoldersAreTold }
{}

/// When nothing is under way, an operation that was sent is unanswered at its coordinator, and waits
/// in the queue of its key, behind another transaction, at one of the nodes that it is sent along.
pub fn each_operation_is_held_up()
    ensures { EachIsHeldUp }
{}

/// When nothing is under way, no transaction that is being aborted has an operation unanswered.
pub fn no_abort_waits()
    ensures { NoAbortWaits }
{}

/// As no host stops, no reply tells of one that did: no transaction ends for the failure of a node or
/// of the cluster, none in an unknown way, and nothing is refused since the cluster is down.
#[tactic(auto, using(crate::proofs::ends::RepliesLive::replies_live))]
pub fn no_reply_tells_of_a_stopped_host()
    ensures { RepliesAreOfTheLiving }
{}

/// There are logs between which a commit was served, of a transaction that takes commands.
#[tactic(auto, using(crate::proofs::hosts::SampleServed::sample_served))]
pub fn a_commit_is_served()
    ensures { SampleIsServed }
{}

/// Each request of the shell, where each was asked for when nothing was under way, is served between
/// two quiet moments, and answered there as the laws above say, by its refusal where the API's state
/// gives one; but for the last one, where something is under way at the end.
pub fn requests_are_answered()
    ensures { RequestsAreAnswered }
{}
