//! Each request is served between two quiet moments.
ghost use Rattle.command_laws.specs.Between.{RequestsAreServed};

/// Where each request is asked for at quiet, one that was driven to quiet is served between two quiet
/// moments: the one at which it is asked for, and the next one at which a request is, or the end.
#[tactic(auto, using(crate::proofs::quiet::ServedBetween::requests_served))]
pub fn requests_are_served()
    ensures { RequestsAreServed }
{}
