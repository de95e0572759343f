//! Signals by which a backup is taken.
ghost use Rattle.std.specs.Prelude.{◌≡◌, ◌∷◌, ◌++◌, OnOk};
ghost use Rattle.trace_bytes.specs.BackupSignals.{backup_signal_bytes};

use crate::output::Output;
use sig_core::{BackupSignal, NoMemory};
use trace_bytes::kinds::signals;

impl Output {
    /// Adds a signal of this family.
    #[tactic(auto, unfolding(trace_bytes::specs::BackupSignals::backup_signal_bytes))]
    pub fn backup_signal(&mut self, signal: &BackupSignal) -> Result<(), NoMemory>
        ensures { OnOk result (self.new ≡ self.old ++ backup_signal_bytes signal.now) }
    {
        match signal {
            BackupSignal::BackupReq { backup } => self.put_u32(signals::BACKUP_REQ, *backup),
            BackupSignal::BackupStart { backup } => self.put_u32(signals::BACKUP_START, *backup),
            BackupSignal::BackupOn => self.u8(signals::BACKUP_ON),
            BackupSignal::BackupOff => self.u8(signals::BACKUP_OFF),
            BackupSignal::BackupChange { epoch, change } => self.put_u64_change(
                signals::BACKUP_CHANGE,
                *epoch,
                change.get(),
            ),
            BackupSignal::BackupScanConf => self.u8(signals::BACKUP_SCAN_CONF),
            BackupSignal::BackupStop { epoch } => self.put_u64(signals::BACKUP_STOP, *epoch),
            BackupSignal::BackupConf => self.u8(signals::BACKUP_CONF),
            BackupSignal::BackupRep { backup, epoch } => self.put_u32_u64(
                signals::BACKUP_REP,
                *backup,
                *epoch,
            ),
            BackupSignal::BackupRef { backup, size } => self.put_u32_u64(
                signals::BACKUP_REF,
                *backup,
                *size,
            ),
        }
    }
}
