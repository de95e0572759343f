//! Fences, by which the blocks of a member drop what comes from older views.
ghost use Rattle.view_laws.specs.Fenced.{FencedSignalsChangeNothing};
ghost use Rattle.view_laws.specs.Fences.{EachViewIsFenced, FencesAreNotBelow, RaisedFencesWerePromised};

/// The fence of a block isn't below the view that its host stands in.
#[tactic(auto, using(crate::proofs::fences::AboveViews::fences_are_not_below))]
pub fn fences_are_not_below()
    ensures { FencesAreNotBelow }
{}

/// A fence above that view is of a set that the member has promised.
#[tactic(auto, using(crate::proofs::fences::Promised::raised_fences_were_promised))]
pub fn raised_fences_were_promised()
    ensures { RaisedFencesWerePromised }
{}

/// Where a view was installed, each fenced block of each of its members has a fence that isn't below
/// its number.
pub fn each_view_is_fenced()
    ensures { EachViewIsFenced }
{}

/// What comes to a block from a view below its fence, and is of a kind that fences stop, changes
/// nothing at its host.
#[tactic(auto, using(crate::proofs::fences::Dropped::fenced_signals_change_nothing))]
pub fn fenced_signals_change_nothing()
    ensures { FencedSignalsChangeNothing }
{}
