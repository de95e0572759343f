//! Where signals about the rows of transactions go, and of whom takeovers are told.
ghost use Rattle.request_laws.specs.Orphans.{TakeoversAreOfOrphans};
ghost use Rattle.request_laws.specs.Routed.{SignalsAreRouted};

/// At each moment of a run in the order of views signals about the rows of transactions have gone where
/// the view of their header sends them, and are of transactions that were asked for, or are driven, in it;
/// and coordinators, and requests that wait at rows, have the chains of their views.
#[tactic(auto, using(crate::proofs::routes::All::signals_are_routed))]
pub fn signals_are_routed()
    ensures { SignalsAreRouted }
{}

/// At each moment takeovers are told only of transactions whose coordinator isn't a full member of the
/// view, and have gathered only such.
#[tactic(auto, using(crate::proofs::orphans::TakeoversOfOrphans::takeovers_are_of_orphans))]
pub fn takeovers_are_of_orphans()
    ensures { TakeoversAreOfOrphans }
{}
