//! The rows that the control slot in use names, at each moment of a node's life.
ghost use Rattle.node_restart.specs.Laws.{ReadyDisksHaveRows, ReplaysStopAtEpochs, RestoredRowsAreStorable};
ghost use Rattle.node_restart.specs.Laws.{RowsAreRestored, SavesKeepRows, SystemSavesKeepRows};
ghost use Rattle.node_restart.specs.Naming.{NamesKeepRows, WalksKeepRows};

/// Whatever a crash leaves of a disk that has a node's rows, the control slot in use restores them, up to
/// any epoch from the least on, of which no row of its checkpoint is later.
pub fn rows_are_restored()
    ensures { RowsAreRestored }
{}

/// Whatever a crash leaves at any moment of a save of rows, the control slot in use restores the rows of
/// before, or those with the records that are saved; behind it the latter.
pub fn saves_keep_rows()
    ensures { SavesKeepRows }
{}

/// Whatever a crash leaves at any moment of a save of the system slot, and behind it, the control slot in use
/// restores the rows of before.
pub fn system_saves_keep_rows()
    ensures { SystemSavesKeepRows }
{}

/// While a local checkpoint is written, and synced, the rows of the one in use stay.
pub fn walks_keep_rows()
    ensures { WalksKeepRows }
{}

/// Whatever a crash leaves at any moment while a local checkpoint is brought into use, the control slot in use
/// restores the rows of before, or those of the checkpoint; behind it the latter.
pub fn names_keep_rows()
    ensures { NamesKeepRows }
{}

/// A disk that is made ready for a life has the rows that the node has of what was restored.
pub fn ready_disks_have_rows()
    ensures { ReadyDisksHaveRows }
{}

/// Records that commit nothing up to an epoch may be left out where rows are replayed up to it.
pub fn replays_stop_at_epochs()
    ensures { ReplaysStopAtEpochs }
{}

/// The rows that are restored are such as a checkpoint has.
pub fn restored_rows_are_storable()
    ensures { RestoredRowsAreStorable }
{}
