//! What a coordinator does, whatever its host takes.
ghost use Rattle.host_laws.specs.Ways.{CoordinatorsGoOneWay, CoordinatorsSay};

/// No coordinator both commits a row of a transaction, or tells the client that it is committed, and
/// aborts a row of it, or tells the client that it is aborted, along any log of its host.
#[tactic(auto, using(crate::proofs::coordinator::OneWay::coordinators_one_way))]
pub fn coordinators_go_one_way()
    ensures { CoordinatorsGoOneWay }
{}

/// Whatever a coordinator says of the commit, the abort or the end of a transaction is of one of its
/// own; and it completes a row only of a transaction that it has begun to carry out.
#[tactic(auto, using(crate::proofs::coordinator::OneWay::coordinators_say))]
pub fn coordinators_say()
    ensures { CoordinatorsSay }
{}
