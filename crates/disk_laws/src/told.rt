//! What the two control slots of a disk tell of durable epochs.
ghost use Rattle.disk_laws.specs.ToldSlots.{ToldSlotsAreKept};

/// Whatever a crash leaves of a node's disk behind a step of a host: of two control slots of the life one was saved at
/// an epoch that is durable, or that the rows of the node were told is durable.
pub fn told_slots_are_kept()
    ensures { ToldSlotsAreKept }
{}
