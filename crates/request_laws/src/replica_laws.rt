//! The keys of a node's rows under views, and the requests that wait for them.
ghost use Rattle.request_laws.specs.Replicas.{InstallationsAreEvents, InstallationsKeepWell, SignalsAreEvents};
ghost use Rattle.request_laws.specs.Replicas.{SignalsKeepWell};
ghost use Rattle.request_laws.specs.Waiting.{InstalledAreAttended, RowsAreWell, SignalsKeepAttended, WaitsHaveRequests};

/// Each signal does to each key of the rows what its event there says, and an installation ends all
/// waits and lets go who has no record and no coordinator among the full members.
pub fn keys_follow_events()
    ensures signals { SignalsAreEvents }
    ensures installations { InstallationsAreEvents }
    ensures well { SignalsKeepWell }
    ensures well_installed { InstallationsKeepWell }
{}

/// The rows of each member have their places, and their locks are orderly, after every log.
pub fn rows_of_members_are_well()
    ensures { RowsAreWell }
{}

/// Whoever waits in the queue of a key has a request that waits for it.
pub fn waiters_have_requests()
    ensures { WaitsHaveRequests }
{}

/// Where transactions ask for one thing at a time, the transaction of each request that waits holds the
/// key's lock as it needs to, or waits for it.
pub fn attended_one_by_one()
    ensures signals { SignalsKeepAttended }
    ensures installations { InstalledAreAttended }
{}
