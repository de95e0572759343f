//! Right logs as moments in the order of views.
ghost use Rattle.moment_laws.specs.Found.{LogsAreMoments, StepsComeToParts, TakersStandInTheCurrentView};

/// Right logs have a moment at which all that their hosts do has come.
#[tactic(auto, using(crate::proofs::MomentRuns::have_moments))]
pub fn logs_are_moments()
    ensures { LogsAreMoments }
{}

/// Whoever takes a signal stands in the current view, if the signal's view isn't greater than its own then.
#[tactic(auto, using(crate::proofs::MomentTurns::taker_stands))]
pub fn takers_stand_in_the_current_view()
    ensures { TakersStandInTheCurrentView }
{}

/// A step of a host comes to what its blocks do: the view of the signal may be installed, then they may
/// take the signal, and a view on which the membership settles may be installed behind it.
#[tactic(auto, using(crate::proofs::PartSteps::step_do))]
pub fn steps_come_to_parts()
    ensures { StepsComeToParts }
{}
