//! What the events of one key of a replica keep, with its lock and the requests that wait.
ghost use Rattle.key_laws.specs.BackupEvents.{FairEventsKeepAt};
ghost use Rattle.key_laws.specs.PrimaryEvents.{FairEventsKeepOrder, TimelyEventsKeepValue};

/// At the primary of a key each event leaves the answers right, and whoever waits attended, as long
/// as the operations of a transaction come one at a time, and its commit and completion when none is
/// left and in this order. Then the row stays led to the same value, as long as what is performed
/// and aborted is of transactions that aren't kept, and what is committed of one that is.
pub fn events_at_primary()
    ensures order { FairEventsKeepOrder }
    ensures value { TimelyEventsKeepValue }
{}

/// At a backup of a key each event leaves its records to exclusive holders, whoever waits attended,
/// and the row led to the same value, as long as images come one at a time and of transactions that
/// aren't decided, and commits, completions and aborts of those that they are for.
#[tactic(auto, using(crate::proofs::BackupOrder::fair_keeps))]
pub fn events_at_backup()
    ensures { FairEventsKeepAt }
{}
