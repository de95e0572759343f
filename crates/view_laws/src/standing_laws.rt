//! Views that hosts stand in, and headers of signals.
ghost use Rattle.view_laws.specs.Standing.{HeadersAreInstalled, HostsAreOfTheirViews, NumbersNeverFall};
ghost use Rattle.view_laws.specs.Standing.{SignalsGoToMembers, ViewsOnlyShrink};

/// The number of a host's view never falls.
#[tactic(auto, using(crate::proofs::standing::Numbers::never_fall))]
pub fn numbers_never_fall()
    ensures { NumbersNeverFall }
{}

/// The member of a host is in the view that the host stands in.
#[tactic(auto, using(crate::proofs::standing::Members::are_of_views))]
pub fn hosts_are_of_their_views()
    ensures { HostsAreOfTheirViews }
{}

/// The view in the header of each signal that was taken was installed by some host.
#[tactic(auto, using(crate::proofs::runs::Headers::headers_installed))]
pub fn headers_are_installed()
    ensures { HeadersAreInstalled }
{}

/// What a host of a node sends goes to the shell's host, or to hosts of members of the view in its header.
#[tactic(auto, using(crate::proofs::follow::Routes::go_to_members))]
pub fn signals_go_to_members()
    ensures { SignalsGoToMembers }
{}

/// Of two views that were installed the one with the greater number is a part of the other.
pub fn views_only_shrink()
    ensures { ViewsOnlyShrink }
{}
