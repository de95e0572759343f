//! Closings at which a member was full.
ghost use Rattle.saved_laws.specs.Closings.{ClosedOnesAreCommitted, CommitsWereDecided, CommittedOnesAreFinal};
ghost use Rattle.saved_laws.specs.Closings.{SavedWereClosed};

/// What a member's rows have noted as saved was closed when the member was full.
pub fn saved_were_closed()
    ensures { SavedWereClosed }
{}

/// Where an epoch is closed, whoever was decided up to it and takes effect is committed at each replica.
pub fn closed_ones_are_committed()
    ensures { ClosedOnesAreCommitted }
{}

/// Whoever is decided up to a closed epoch, and is committed by a member that was full at its closing, takes
/// effect.
pub fn committed_ones_are_final()
    ensures { CommittedOnesAreFinal }
{}

/// A commit that rows take is of a transaction that was decided, in that epoch.
pub fn commits_were_decided()
    ensures { CommitsWereDecided }
{}
