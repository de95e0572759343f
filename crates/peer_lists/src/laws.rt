//! What a delivery does, and that it does what the machine says.
ghost use Rattle.peer_lists.specs.Laws.{LinksStay, OwnStepsAreKept, PeersGetTheirs, StepsAreDelivered};

/// Of what a host sends each peer gets just what is for it, in order, and nothing else changes.
pub fn peers_get_theirs()
    ensures peers { PeersGetTheirs }
    ensures links { LinksStay }
{}

/// What the steps of a host send, by the machine, its peers have once it was delivered, in their
/// links or waiting, and its own queue what is for itself; with the numbers that the machine gives.
pub fn steps_are_delivered()
    ensures peers { StepsAreDelivered }
    ensures own { OwnStepsAreKept }
{}
