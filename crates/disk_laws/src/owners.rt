//! The node that the control file of a disk names.
ghost use Rattle.disk_laws.specs.Owners.{OwnersAreFound, OwnersAreKept};

/// Whatever a crash leaves of a control file that names its node for good, it names that node.
pub fn owners_are_found()
    ensures { OwnersAreFound }
{}

/// Whatever a step of a host has the disk of its node write, the control file names its node for good.
pub fn owners_are_kept()
    ensures { OwnersAreKept }
{}
