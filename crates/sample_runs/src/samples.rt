//! Sample runs.
ghost use Rattle.sample_runs.specs.Put.{SampleIsPut};
ghost use Rattle.sample_runs.specs.Wait.{SampleIsGranted};

/// There are quiet logs of two nodes in which a put went through both replicas: their history is that
/// one entry, with the epoch and the answer that the client was told, and both nodes have the row.
pub fn puts_are_told()
    ensures { SampleIsPut }
{}

/// There are quiet logs of one node in which a put waited for another transaction's lock, and was
/// granted it at that one's commit: their history has both puts in order, and in the end nobody waits.
pub fn waits_are_granted()
    ensures { SampleIsGranted }
{}
