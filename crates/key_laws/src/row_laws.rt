//! What the events of one key do to it at a replica.
ghost use Rattle.key_laws.specs.BackupLaws.{AbortsMove, CommitsMove, CompletionsMove, DecisionsMove, GrantsMove};
ghost use Rattle.key_laws.specs.BackupLaws.{ImagesMove, UnkeptDecisionsMove};
ghost use Rattle.key_laws.specs.PrimaryLaws.{AbortsKeepGood, AbortsKeepValue, CommitsKeepGood, CommitsKeepValue};
ghost use Rattle.key_laws.specs.PrimaryLaws.{CompletionsKeepGood, CompletionsKeepValue, DecisionsAreRight};
ghost use Rattle.key_laws.specs.PrimaryLaws.{GrantsKeepGood, OperationsKeepGood, OperationsKeepValue};

/// At the primary of a key, of each transaction that hasn't ended there the answers stay right from
/// the committed row on, whatever is granted, performed, committed, aborted and completed.
pub fn primary_keeps_answers_right()
    ensures granted { GrantsKeepGood }
    ensures performed { OperationsKeepGood }
    ensures committed { CommitsKeepGood }
    ensures aborted { AbortsKeepGood }
    ensures completed { CompletionsKeepGood }
{}

/// The row of a key at its primary, once all that is kept is committed there, stays what it is, but
/// for a decision: by that the answers of the transaction are right from it, and it becomes what its
/// operations make of it.
pub fn primary_keeps_value()
    ensures performed { OperationsKeepValue }
    ensures committed { CommitsKeepValue }
    ensures aborted { AbortsKeepValue }
    ensures completed { CompletionsKeepValue }
    ensures decided { DecisionsAreRight }
{}

/// At a backup of a key each record is of a transaction that holds the lock exclusive, and what is
/// committed there is decided. The row, once all that is kept is committed there, stays what it is,
/// but for the decision of a transaction that is kept: then it becomes the image that is prepared
/// there. Nothing is said of the row while it has the image of one that isn't kept in the end.
pub fn backup_keeps_value()
    ensures granted { GrantsMove }
    ensures prepared { ImagesMove }
    ensures committed { CommitsMove }
    ensures completed { CompletionsMove }
    ensures aborted { AbortsMove }
    ensures decided { DecisionsMove }
    ensures unkept { UnkeptDecisionsMove }
{}
