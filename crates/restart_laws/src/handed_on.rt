//! Disks from one life to the next.
ghost use Rattle.restart_laws.specs.HandedOn.{LivesAreHandedOn, LivesGoOnFromHistory, NewDisksAreFit};

/// A life may begin on new disks.
pub fn new_disks_are_fit()
    ensures { NewDisksAreFit }
{}

/// So it may on what a crash leaves of the disks of a life, where there is an epoch behind the one to which a
/// restart comes.
pub fn lives_are_handed_on()
    ensures { LivesAreHandedOn }
{}

/// The next life begins with the rows of the history of the one before, up to the epoch from which it starts.
pub fn lives_go_on_from_history()
    ensures { LivesGoOnFromHistory }
{}
