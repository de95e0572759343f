//! What others are told.
ghost use Rattle.restart_laws.specs.Told.{StepsTellWhatIsKept};

/// Nobody is told by a member's hosts what the disk of its node hasn't kept.
pub fn steps_tell_what_is_kept()
    ensures { StepsTellWhatIsKept }
{}
