//! What the replicas of a key are in the first view of a cluster.
ghost use Rattle.frag_map.specs.Laws.{FirstViewIsViable, GroupHasAllReplicas, ReplicasAreApart, ReplicasAreOfTheGroup};

/// No two replicas of a key are on one node.
pub fn replicas_are_apart()
    ensures { ReplicasAreApart }
{}

/// Each replica of a key is on a node of the group that has the key.
pub fn replicas_are_of_the_group()
    ensures { ReplicasAreOfTheGroup }
{}

/// Each node of the group that has a key has a replica of it.
pub fn group_has_all_replicas()
    ensures { GroupHasAllReplicas }
{}

/// Each group has a full member in the first view.
pub fn first_view_is_viable()
    ensures { FirstViewIsViable }
{}
