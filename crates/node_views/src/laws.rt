//! What is true of the steps of a host, whatever comes.
ghost use Rattle.node_views.specs.Laws.{CalmHostsLeaveItToBlocks, CutHostsStayCut, MalformedSignalsChangeNothing};
ghost use Rattle.node_views.specs.Laws.{InstalledViewsGiveWalksUp, StoppingHostsAreSilent};
ghost use Rattle.node_views.specs.Stop.{MarksTellOfStops};
ghost use Rattle.node_views.specs.Words.{HostsKeepToTheirWords};

/// Where a host isn't to be killed, a signal from no greater view, which no fence stops and which isn't
/// the host's own, is the blocks' alone.
#[tactic(auto, using(crate::proofs::LawLemmas::calm_hosts_leave_it_to_blocks))]
pub fn calm_hosts_leave_it_to_blocks()
    ensures { CalmHostsLeaveItToBlocks }
{}

/// A step that stops its host sends nothing.
#[tactic(auto, using(crate::proofs::LawLemmas::stopping_hosts_are_silent))]
pub fn stopping_hosts_are_silent()
    ensures { StoppingHostsAreSilent }
{}

/// The marks of a step tell that its host stops, and why, just where the step says so.
#[tactic(auto, using(crate::proofs::StopWalk::marks_tell_of_stops))]
pub fn marks_tell_of_stops()
    ensures { MarksTellOfStops }
{}

/// A signal that isn't well formed changes nothing, sends nothing and marks nothing.
#[tactic(auto, using(crate::proofs::LawLemmas::malformed_signals_change_nothing))]
pub fn malformed_signals_change_nothing()
    ensures { MalformedSignalsChangeNothing }
{}

/// A host that was cut off stays so.
#[tactic(auto, using(crate::proofs::CutLemmas::cut_hosts_stay_cut))]
pub fn cut_hosts_stay_cut()
    ensures { CutHostsStayCut }
{}

/// Where a view is installed in a host with rows, a local checkpoint that is under way, or waits for its
/// switch, is given up, and a disk has nothing to do of it.
#[tactic(auto, using(crate::proofs::LawLemmas::installed_views_give_walks_up))]
pub fn installed_views_give_walks_up()
    ensures { InstalledViewsGiveWalksUp }
{}

/// Whatever comes, a host sends and marks only what the blocks of its part may, beside the marks that
/// it makes itself.
#[tactic(auto, using(crate::proofs::WordWalk::hosts_law))]
pub fn hosts_keep_to_their_words()
    ensures { HostsKeepToTheirWords }
{}
