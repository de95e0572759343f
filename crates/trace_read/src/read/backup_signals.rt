//! Signals by which a backup is taken.
ghost use Rattle.trace_read.specs.Reading.{GivesOrWants};
ghost use Rattle.trace_bytes.specs.BackupSignals.{backup_of, backed_up_of};

use crate::input::Input;
use crate::stop::Stop;
use sig_core::{BackupSignal, Body, Held};
use std::alloc::Global;
use trace_bytes::kinds::signals;

/// A signal of this kind, one from `BACKUP_REQ` to `BACKUP_SCAN_CONF`.
///
/// # Errors
/// Where a byte doesn't fit, and want of memory.
#[tactic(auto, unfolding(trace_bytes::specs::BackupSignals::backup_of), using(crate::proofs::Stops::stops))]
pub fn backup_of(alloc: Global, input: &mut Input<'_>, number: u8) -> Result<Body, Stop>
    ensures { GivesOrWants result input.new (backup_of number input.old) }
{
    match number {
        signals::BACKUP_REQ => {
            let backup = input.u32()?;
            Ok(Body::Backup(BackupSignal::BackupReq { backup }))
        }
        signals::BACKUP_START => {
            let backup = input.u32()?;
            Ok(Body::Backup(BackupSignal::BackupStart { backup }))
        }
        signals::BACKUP_ON => Ok(Body::Backup(BackupSignal::BackupOn)),
        signals::BACKUP_OFF => Ok(Body::Backup(BackupSignal::BackupOff)),
        signals::BACKUP_CHANGE => {
            let epoch = input.u64()?;
            let change = input.change()?;
            Ok(Body::Backup(BackupSignal::BackupChange {
                epoch,
                change: Held::new(alloc, change)?,
            }))
        }
        _ => Ok(Body::Backup(BackupSignal::BackupScanConf)),
    }
}

/// A signal of this kind, one from `BACKUP_STOP` to `BACKUP_REF`.
///
/// # Errors
/// Where a byte doesn't fit, and want of memory.
#[tactic(auto, unfolding(trace_bytes::specs::BackupSignals::backed_up_of), using(crate::proofs::Stops::stops))]
pub fn backed_up_of(input: &mut Input<'_>, number: u8) -> Result<Body, Stop>
    ensures { GivesOrWants result input.new (backed_up_of number input.old) }
{
    match number {
        signals::BACKUP_STOP => {
            let epoch = input.u64()?;
            Ok(Body::Backup(BackupSignal::BackupStop { epoch }))
        }
        signals::BACKUP_CONF => Ok(Body::Backup(BackupSignal::BackupConf)),
        signals::BACKUP_REP => {
            let backup = input.u32()?;
            let epoch = input.u64()?;
            Ok(Body::Backup(BackupSignal::BackupRep { backup, epoch }))
        }
        _ => {
            let backup = input.u32()?;
            let size = input.u64()?;
            Ok(Body::Backup(BackupSignal::BackupRef { backup, size }))
        }
    }
}
