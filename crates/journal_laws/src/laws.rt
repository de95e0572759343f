//! What journals are good for.
ghost use Rattle.journal_laws.specs.Laws.{JournalsHaveRecords, JournalsHaveRoom, OwnRowsAreTheRows};
ghost use Rattle.journal_laws.specs.Laws.{ReplaysGiveOwnRows};
ghost use Rattle.journal_laws.specs.Walks.{WalksAreFollowed};

/// At each moment the journal of a member's rows has just the records of what its log did to them.
pub fn journals_have_records()
    ensures { JournalsHaveRecords }
{}

/// The records of events, replayed up to an epoch, give the rows that are committed up to it.
pub fn replays_give_own_rows()
    ensures { ReplaysGiveOwnRows }
{}

/// Where nothing was committed later than an epoch, those are the rows.
pub fn own_rows_are_the_rows()
    ensures { OwnRowsAreTheRows }
{}

/// All bytes of a member's journal fit in its ring.
pub fn journals_have_room()
    ensures { JournalsHaveRoom }
{}

/// The events of a member's rows tell how far a local checkpoint of them has come, and what their journal gave up.
pub fn walks_are_followed()
    ensures { WalksAreFollowed }
{}
