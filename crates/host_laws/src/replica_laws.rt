//! A replica is its keys.
ghost use Rattle.host_laws.specs.ReplicaLaws.{KeysBeginAtRest, KeysHaveRows, LogsFollowEvents, LogsKeepWell};
ghost use Rattle.host_laws.specs.ReplicaLaws.{NodesBeginAtRest, SignalsAreEvents, SignalsKeepWell};

/// Whatever signals a host takes, its rows have their places and its locks are orderly, and each
/// signal does to each key what its event there says, which reads nothing of the other keys but
/// whether an image is refused. At first each key of its node's group has its row of the start, and
/// nothing is at work on it.
pub fn replicas_are_their_keys()
    ensures events { SignalsAreEvents }
    ensures well { SignalsKeepWell }
    ensures logs { LogsKeepWell }
    ensures begin { KeysBeginAtRest }
{}

/// Along any log of a host each key goes from event to event, from its row of the start on where the
/// host has the rows of a node of its group; and its row is the committed row of the host.
pub fn logs_follow_events()
    ensures steps { LogsFollowEvents }
    ensures begin { NodesBeginAtRest }
    ensures rows { KeysHaveRows }
{}
