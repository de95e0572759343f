//! What a restart gives.
ghost use Rattle.restart_laws.specs.Restart.{RestartsAreHistory};

/// A restart from what a crash left of all disks of a life gives the rows of its history up to one epoch,
/// no earlier than any that was reported durable.
pub fn restarts_are_history()
    ensures { RestartsAreHistory }
{}
