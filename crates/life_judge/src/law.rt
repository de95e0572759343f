//! The laws that lives are judged by.

use sig_core::NoMemory;
use std::alloc::{AllocError, AllocFailed};

/// A law of a life, as a judge finds it broken.
#[derive(Clone, Copy)]
pub enum Law {
    /// No step follows the one that stopped its host.
    NoStepAfterStop,
    /// The views of a host have greater and greater numbers.
    ViewsGrow,
    /// There is one view of a number.
    OneViewANumber,
    /// A transaction is decided once at most.
    DecidedOnce,
    /// A transaction is reported once at most.
    ReportedOnce,
    /// What is reported committed was decided, with that epoch.
    ReportedEpoch,
    /// What is reported committed, and wrote, was applied.
    ReportedIsApplied,
    /// What is reported aborted is in no history.
    AbortedInNoHistory,
    /// Epochs don't fall along the history.
    EpochsGrow,
    /// Each answer in the history is that of a replay.
    Legal,
    /// Once an epoch is closed, or durable, no transaction of it or an earlier one is added.
    ClosedIsWhole,
    /// A durable epoch was closed before.
    DurableIsClosed,
    /// A key at rest has the row of the history, at each node that has it.
    RowsAgree,
    /// What was reported before another transaction was asked for stands before it in the history.
    StrictOrder,
    /// The views that a node promises have greater and greater numbers.
    PromisesGrow,
    /// Where nothing was cut, each request is answered in the end.
    NothingOwed,
    /// Where nothing was cut, in the end no live node holds a record of a transaction that was reported.
    NothingLeft,
    /// A host of a node stands in views that have a member of that node.
    HostsAreOfTheirViews,
    /// A view with a greater number is a part of one with a lesser.
    ViewsShrink,
    /// The view in the header of a signal that was taken was installed by some host.
    HeadersAreInstalled,
    /// A view has a full member in each group.
    ViewsAreViable,
    /// A view was promised by all its members before it was installed.
    ViewsArePromised,
    /// Nobody decides or applies anything in a lesser view than its node has promised.
    PromisesAreKept,
    /// The client wanted what is in the history committed.
    CommitIsWanted,
    /// What is in the history has the operations that the client asked for.
    OperationsAsAsked,
    /// What is in the history has the answers that the client was given.
    AnswersAsGiven,
    /// The history of a later cut has that of an earlier one, in its order.
    HistoriesGrow,
    /// Two replicas hold the same image of a transaction's write of a row.
    ImagesAgree,
    /// A restart comes to no earlier epoch than one that was told durable, or that the life began with.
    DurableIsRestored,
    /// The rows of a restart are those of the history, up to its epoch.
    RestartIsOfHistory,
}

impl Law {
    /// The law as a line tells it.
    pub fn name(&self) -> &'static str {
        match self {
            Law::NoStepAfterStop => "a step follows a stop",
            Law::ViewsGrow => "a view has no greater number",
            Law::OneViewANumber => "two views have one number",
            Law::DecidedOnce => "a transaction is decided twice",
            Law::ReportedOnce => "a transaction is reported twice",
            Law::ReportedEpoch => "a commit was not decided so",
            Law::ReportedIsApplied => "a commit was not applied",
            Law::AbortedInNoHistory => "an abort is in the history",
            Law::EpochsGrow => "an epoch falls",
            Law::Legal => "an answer is not that of the history",
            Law::ClosedIsWhole => "a closed epoch has one more",
            Law::DurableIsClosed => "a durable epoch was not closed",
            Law::RowsAgree => "a row is not that of the history",
            Law::StrictOrder => "a report comes before a request that it stands behind",
            Law::PromisesGrow => "a promise has no greater number",
            Law::NothingOwed => "a request is not answered",
            Law::NothingLeft => "a record is left of a transaction that has ended",
            Law::HostsAreOfTheirViews => "a host stands in a view without its node",
            Law::ViewsShrink => "a view has a member that an earlier one lacks",
            Law::HeadersAreInstalled => "a header has a view that nobody installed",
            Law::ViewsAreViable => "a view has no full member of a group",
            Law::ViewsArePromised => "a view was not promised by a member",
            Law::PromisesAreKept => "a promise was not kept",
            Law::CommitIsWanted => "a transaction of the history was not to be committed",
            Law::OperationsAsAsked => "an operation of the history was not asked for",
            Law::AnswersAsGiven => "an answer of the history was not given",
            Law::HistoriesGrow => "a later history has not what an earlier one has",
            Law::ImagesAgree => "two replicas hold different images",
            Law::DurableIsRestored => "a durable epoch is not restored",
            Law::RestartIsOfHistory => "a restart has other rows than the history",
        }
    }
}

/// Why a life has no verdict that it is fine.
#[derive(Clone, Copy)]
pub enum Fault {
    Broken(Law),
    NoMemory,
}

impl From<NoMemory> for Fault {
    fn from(_: NoMemory) -> Fault {
        Fault::NoMemory
    }
}

impl From<AllocError> for Fault {
    fn from(_: AllocError) -> Fault {
        Fault::NoMemory
    }
}

impl<T> From<AllocFailed<T>> for Fault
where
    T: Drop,
{
    fn from(_: AllocFailed<T>) -> Fault {
        Fault::NoMemory
    }
}
