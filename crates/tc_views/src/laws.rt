//! What is true of a coordinator under views, whatever comes.
ghost use Rattle.tc_views.specs.Laws.{CalmSteps, DoomedAreNotDecided, FailedAreToldTheView, NoneIsLeftTwice};
ghost use Rattle.tc_views.specs.Words.{CoordinatorKeepsToItsWords};

/// Where nothing is doomed and nothing is left to do, a coordinator steps as it does within its
/// view, but at the promise of a view and where it goes on with an installation or a list of an
/// older view.
#[tactic(auto, using(crate::proofs::CalmLemmas::calm_steps))]
pub fn calm_steps()
    ensures { CalmSteps }
{}

/// A doomed transaction that isn't decided is decided by no step.
#[tactic(auto, using(crate::proofs::DoomLemmas::doomed_are_not_decided))]
pub fn doomed_are_not_decided()
    ensures { DoomedAreNotDecided }
{}

/// What an installation leaves to do has no transaction twice.
#[tactic(auto, using(crate::proofs::LeftLemmas::none_is_left_twice))]
pub fn none_is_left_twice()
    ensures { NoneIsLeftTwice }
{}

/// A transaction that an installation leaves to be aborted is aborted with the number of the view.
#[tactic(auto, using(crate::proofs::LeftLemmas::failed_are_told_the_view))]
pub fn failed_are_told_the_view()
    ensures { FailedAreToldTheView }
{}

/// Whatever a coordinator takes, and whatever view is installed, it sends nothing but its own words,
/// and marks nothing.
#[tactic(auto, using(crate::proofs::Walk::coordinator_words))]
pub fn keeps_to_its_words()
    ensures { CoordinatorKeepsToItsWords }
{}
