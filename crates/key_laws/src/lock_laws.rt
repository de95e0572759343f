//! What calls on the lock of a row leave to those that hold it and those that wait.
ghost use Rattle.key_laws.specs.LockLaws.{AttendedHold, ExpiriesAttend, ExpiriesHoldOn, GrantsHold, QueuedWait};
ghost use Rattle.key_laws.specs.LockLaws.{ReleasesAttend, ReleasesHoldOn, RequestsAttend, RequestsHoldOn, RoundsAttend};

/// No call on an orderly lock takes it from a holder, or makes an exclusive holder a shared one, but
/// for the release by the holder itself; and whose request is granted holds the lock as it asked.
pub fn holders_hold_on()
    ensures requested { RequestsHoldOn }
    ensures granted { GrantsHold }
    ensures released { ReleasesHoldOn }
    ensures expired { ExpiriesHoldOn }
{}

/// Who asked for an orderly lock holds it as it asked or waits for it, until it lets go or its wait
/// expires: so who waits no more holds it.
pub fn waits_end_in_holding()
    ensures queued { QueuedWait }
    ensures requested { RequestsAttend }
    ensures released { ReleasesAttend }
    ensures expired { ExpiriesAttend }
    ensures aged { RoundsAttend }
    ensures served { AttendedHold }
{}
