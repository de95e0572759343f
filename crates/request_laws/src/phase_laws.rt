//! What a coordinator has of each of its transactions, and what the epochs beside it have decided.
ghost use Rattle.request_laws.specs.Stand.{CoordinatorsStand};

/// At each moment of a run in the order of views, of the coordinator of each member: what is so of a
/// transaction in its phase; whom it has forgotten has gone one way, and none goes both; who has gone
/// forth was decided; and who was decided, in the one epoch that was asked for with its operations, has
/// gone one way or waits for that epoch.
pub fn coordinators_stand()
    ensures { CoordinatorsStand }
{}
