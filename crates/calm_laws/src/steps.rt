//! What comes to a host of the plain machine, and that hosts which are alike step alike.
ghost use Rattle.calm_laws.specs.Known.{ComingAreKnown, ComingAreWellFormed};
ghost use Rattle.calm_laws.specs.Steps.{HostsBeginAlike, MainPartsStepAside, PartsStepAlike, ShellsStepAlike};

/// Each signal that comes to a host of the plain machine is well formed, and tells of no
/// transaction but of those of members that began the life.
pub fn coming_signals_are_known()
    ensures known { ComingAreKnown }
    ensures fine { ComingAreWellFormed }
{}

/// In calm the shell's host and the parts of a node that have transactions and rows do at a signal
/// what their plain ones do, but that the shell sends a round of time to the membership of each
/// node besides; and a main part does something for the membership alone.
pub fn steps_are_alike()
    ensures shell { ShellsStepAlike }
    ensures main_parts { MainPartsStepAside }
    ensures parts { PartsStepAlike }
{}

/// The hosts of a life that begins without rows begin alike.
#[tactic(auto, using(crate::proofs::lives::Beginnings::begin_alike))]
pub fn hosts_begin_alike()
    ensures { HostsBeginAlike }
{}
