//! What hosts do at something of a closing.
ghost use Rattle.peace_laws.specs.Steps.{ClosingsAreAskedNear, ClosingsStepNear};

/// At what is told of a closing a host's plain one stays as it is, but for the epoch that it gives; and
/// so it is where the client's side is asked for one.
pub fn closings_step_near()
    ensures steps { ClosingsStepNear }
    ensures asked { ClosingsAreAskedNear }
{}
