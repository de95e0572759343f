//! Closings of epochs, whatever stops and is cut off.
ghost use Rattle.closing_laws.specs.Closed.{ClosersHaveHeardAll, DurableWereClosed};
ghost use Rattle.closing_laws.specs.Ended.{ForgottenAreDone, UncountedAreForgotten};
ghost use Rattle.closing_laws.specs.Over.{OverLeavesNone};
ghost use Rattle.closing_laws.specs.Stays.{ClosedStayClosed};

/// An epoch is closed by the president of the current view, where each full member has ended it, and the
/// takeover of that view is over.
pub fn closers_have_heard_all()
    ensures { ClosersHaveHeardAll }
{}

/// Whoever was decided and isn't counted any more at its node is forgotten by its coordinator; and whoever
/// was committed there and is forgotten is done.
pub fn ended_ones_are_done()
    ensures uncounted { UncountedAreForgotten }
    ensures forgotten { ForgottenAreDone }
{}

/// Once a takeover of the current view is over, whoever commits and has no coordinator there is done.
pub fn takeovers_leave_none()
    ensures { OverLeavesNone }
{}

/// Once an epoch is closed, or durable, nobody who writes and has it, or one before it, comes to any later
/// history.
pub fn closed_epochs_stay_closed()
    ensures { ClosedStayClosed }
{}

/// An epoch that is durable was closed before.
pub fn durable_epochs_were_closed()
    ensures { DurableWereClosed }
{}
