//! That a member's rows keep locks.
ghost use Rattle.saved_laws.specs.Locks.{MembersKeepLocks, PreparedStandAlone};

/// No two transactions have prepared images of one key in a member's rows.
pub fn prepared_stand_alone()
    ensures { PreparedStandAlone }
{}

/// Who prepares an image of a key in a member's rows is alone there, and the image can be read.
pub fn members_keep_locks()
    ensures { MembersKeepLocks }
{}
