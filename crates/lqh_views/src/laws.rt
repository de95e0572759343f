//! What is true of the steps of a node's rows under views.
ghost use Rattle.lqh_views.specs.Laws.{CalmSteps, InstallationsEndWaits, ReportsAreTrue};
ghost use Rattle.lqh_views.specs.WholeReports.{ReportsLeaveNothingOut, ReportsTellEachOnce};
ghost use Rattle.lqh_views.specs.Words.{ReplicaKeepsToItsWords};

/// Where all whom a step of the rows tells of the end of a transaction's part are coordinators that
/// are full members, a step at a signal of the rows is that of `Lqh`, and all else stays.
#[tactic(auto, using(crate::proofs::LawLemmas::calm_steps))]
pub fn calm_steps()
    ensures { CalmSteps }
{}

/// After an installation nobody waits, and no report is under way. Of each key those hold the lock,
/// in the same order, who held it before and have a record on the key or a coordinator that is a
/// full member.
pub fn installations_end_waits()
    ensures { InstallationsEndWaits }
{}

/// Whatever is told to a takeover is so in the state in which it is told: a record that is prepared,
/// with epoch 0, one that is committed, with the epoch of the commit, or a marker, with its epoch;
/// each of a transaction whose coordinator isn't a full member.
#[tactic(auto, using(crate::proofs::LawLemmas::reports_are_true))]
pub fn reports_are_true()
    ensures { ReportsAreTrue }
{}

/// A takeover that asked for a report, and then was told its end, was told before of each record and
/// of each marker of an orphaned transaction that stood all the while, whatever else the replica took
/// in between.
#[tactic(auto, using(crate::proofs::WholeLemmas::reports_leave_nothing_out))]
pub fn reports_leave_nothing_out()
    ensures { ReportsLeaveNothingOut }
{}

/// Where a replica takes nothing in between but its own signals, a report tells of each record of an
/// orphaned transaction, from the last to the first, then of each such marker likewise, and then the
/// end: the first n + 1 of these in the step of the request and n steps behind it.
#[tactic(auto, using(crate::proofs::AloneLemmas::reports_tell_each_once))]
pub fn reports_tell_each_once()
    ensures { ReportsTellEachOnce }
{}

/// Whatever the rows take, and whatever view is installed, they send and mark nothing but their own
/// words and marks.
#[tactic(auto, using(crate::proofs::Walk::replica_words))]
pub fn keeps_to_its_words()
    ensures { ReplicaKeepsToItsWords }
{}
