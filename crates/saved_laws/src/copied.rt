//! What is told before an epoch is durable.
ghost use Rattle.saved_laws.specs.Copied.{CopiedWereSaved, DoneWereMarked, DurableWereNoted};

/// An epoch is ordered to be written as durable at members that have told that they saved it.
pub fn copied_were_saved()
    ensures { CopiedWereSaved }
{}

/// An epoch is reported durable when each full member of a view has told that it noted so.
pub fn durable_were_noted()
    ensures { DurableWereNoted }
{}

/// Who tells that an epoch is durable has marked so.
pub fn done_were_marked()
    ensures { DoneWereMarked }
{}
