//! What hosts of the plain machine do, whatever the epochs.
ghost use Rattle.level_laws.specs.Laws.{HostsAreLevel};

/// Where all epochs are made one, in what a host knows and in what it takes, so are those in what it knows
/// then, sends and marks, and nothing else is changed.
#[tactic(auto, using(crate::proofs::Level::all_level))]
pub fn hosts_are_level()
    ensures { HostsAreLevel }
{}
