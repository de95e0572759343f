//! What the rest of the machine owes each key of a replica.
ghost use Rattle.run_laws.specs.Owed.{DecidedAreSettled, EventsAreOwed};

/// At each event a key of a replica gets what it is owed: requests of a transaction one at a time,
/// and of none that is decided; a commit of one that is, at the primary last; a completion when all
/// replicas have committed; an abort of one that is given up. And whoever is decided in a step, and
/// isn't given up, is settled for each key, with the operations for which its epoch was asked.
pub fn keys_get_what_is_owed()
    ensures events { EventsAreOwed }
    ensures decided { DecidedAreSettled }
{}
