//! What is true of every log, whatever the calls on it were.
ghost use Rattle.redo_log.specs.Laws.{PiecesAreTheRecords};
ghost use Rattle.redo_log.specs.Replaying.{RecordsAreNotDamaged};
ghost use Rattle.redo_log.specs.StoredLaws.{PiecesAreStored, StoredRecordsAreReplayed, SyncedBytesStay};
ghost use Rattle.redo_log.specs.StoredLaws.{WritesLayPieces};

/// The pieces of a log, laid at their places, are the bytes of its records, each once.
pub fn pieces_are_the_records()
    ensures { PiecesAreTheRecords }
{}

/// Replay finds no damage in bytes that are those of records.
pub fn records_are_not_damaged()
    ensures { RecordsAreNotDamaged }
{}

/// A write of a piece lays it down in the files of a disk, and a sync leaves them.
pub fn writes_lay_pieces()
    ensures { WritesLayPieces }
{}

/// After the pieces of a log files have the bytes of its records at their places: the last of them,
/// as many as the ring has room for.
pub fn pieces_are_stored()
    ensures { PiecesAreStored }
{}

/// Bytes of a log that were synced stand at their places in whatever a crash leaves.
pub fn synced_bytes_stay()
    ensures { SyncedBytesStay }
{}

/// Where files have the bytes of records, replay of these positions replays just these.
pub fn stored_records_are_replayed()
    ensures { StoredRecordsAreReplayed }
{}
