//! What becomes of transactions.
ghost use Rattle.commit_laws.specs.Fates.{AbortsStay, CommitsStay};
ghost use Rattle.commit_laws.specs.Lost.{LostStay};
ghost use Rattle.commit_laws.specs.Together.{AllStandAlways};

/// A transaction that its coordinator has given up, or that is doomed there, is never committed there: it
/// is so at each later moment.
#[tactic(auto, using(crate::proofs::fates::LostStays::lost_stay))]
pub fn lost_ones_stay_lost()
    ensures { LostStay }
{}

/// Whoever aborts at a moment does so at each later one; and whoever commits does so as long as no other
/// view comes to be the current one.
#[tactic(auto, using(crate::proofs::fates::Stay::aborts_stay, crate::proofs::fates::Stay::commits_stay))]
pub fn fates_are_settled()
    ensures abort { AbortsStay }
    ensures commit { CommitsStay }
{}

/// At each moment whoever speaks of aborts and of commits speaks truly; commits are told where each key was
/// committed; what takeovers rule agrees with what becomes of transactions; each replica has what it needs
/// of whoever doesn't abort; and what is under way of an operation tells how far it has come.
#[tactic(auto, using(crate::proofs::settled::All::all_stand))]
pub fn all_stands_together()
    ensures { AllStandAlways }
{}
