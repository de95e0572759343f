//! Signals by which a backup of one epoch is taken.
use crate::change::Change;
use crate::held::Held;

/// Signals by which a backup of one epoch is taken. `backup` is the number that a script gives it.
#[derive(Drop)]
pub enum BackupSignal {
    BackupReq { backup: u32 },
    BackupStart { backup: u32 },
    /// Tell each row that is committed from now on.
    BackupOn,
    BackupOff,
    BackupChange { epoch: u64, change: Held<Change> },
    BackupScanConf,
    /// The backup has the transactions up to this epoch.
    BackupStop { epoch: u64 },
    BackupConf,
    BackupRep { backup: u32, epoch: u64 },
    /// The data of a node would have so many bytes, which are too many.
    BackupRef { backup: u32, size: u64 },
}
