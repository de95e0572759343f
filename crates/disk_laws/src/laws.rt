//! The disks of nodes keep up with their hosts.
ghost use Rattle.disk_laws.specs.Laws.{ReadyDisksKeepUp, RequestsAreKept, StepsAreKept, WhatIsKeptIsFound};

/// A disk that is ready for a life has what there is to keep of hosts that did nothing yet.
pub fn ready_disks_keep_up()
    ensures { ReadyDisksKeepUp }
{}

/// A host goes on, and the disk of its node has what it was to keep of it.
pub fn steps_are_kept()
    ensures { StepsAreKept }
{}

/// The shell asks for something, of which no disk has anything to keep.
pub fn requests_are_kept()
    ensures { RequestsAreKept }
{}

/// Whatever a crash leaves of a disk that keeps up, what was saved and noted is found on it.
pub fn what_is_kept_is_found()
    ensures { WhatIsKeptIsFound }
{}
