//! Signals of epochs and global checkpoints.
ghost use Rattle.std.specs.Prelude.{◌≡◌, ◌∷◌, ◌++◌, OnOk};
ghost use Rattle.trace_bytes.specs.EpochSignals.{epoch_signal_bytes};

use crate::output::Output;
use sig_core::{EpochSignal, NoMemory};
use trace_bytes::kinds::signals;

impl Output {
    /// Adds a signal of this family.
    #[tactic(auto, unfolding(trace_bytes::specs::EpochSignals::epoch_signal_bytes))]
    pub fn epoch_signal(&mut self, signal: &EpochSignal) -> Result<(), NoMemory>
        ensures { OnOk result (self.new ≡ self.old ++ epoch_signal_bytes signal.now) }
    {
        match signal {
            EpochSignal::DiVerifyReq { tx, ops } => self.put_tx_ops(
                signals::DI_VERIFY_REQ,
                *tx,
                ops.as_slice(),
            ),
            EpochSignal::DiVerifyConf { tx, epoch } => self.put_tx_u64(
                signals::DI_VERIFY_CONF,
                *tx,
                *epoch,
            ),
            EpochSignal::DiVerifyEnd { tx } => self.put_tx(signals::DI_VERIFY_END, *tx),
            EpochSignal::GcpReq { by } => self.put_block(signals::GCP_REQ, *by),
            EpochSignal::GcpPrepare { epoch, next } => self.put_two(
                signals::GCP_PREPARE,
                *epoch,
                *next,
            ),
            EpochSignal::GcpPrepareConf { epoch } => self.put_u64(
                signals::GCP_PREPARE_CONF,
                *epoch,
            ),
            EpochSignal::GcpCommit { epoch, next } => self.put_two(
                signals::GCP_COMMIT,
                *epoch,
                *next,
            ),
            EpochSignal::GcpNodeFinish { epoch } => self.put_u64(signals::GCP_NODE_FINISH, *epoch),
            EpochSignal::GcpSaveReq { epoch } => self.put_u64(signals::GCP_SAVE_REQ, *epoch),
            EpochSignal::GcpSaveConf { epoch } => self.put_u64(signals::GCP_SAVE_CONF, *epoch),
            EpochSignal::CopyGciReq { epoch, mask } => self.put_u64_u8(
                signals::COPY_GCI_REQ,
                *epoch,
                *mask,
            ),
            EpochSignal::CopyGciConf { epoch } => self.put_u64(signals::COPY_GCI_CONF, *epoch),
            EpochSignal::GcpDone { epoch } => self.put_u64(signals::GCP_DONE, *epoch),
            EpochSignal::GcpRep { epoch } => self.put_u64(signals::GCP_REP, *epoch),
            EpochSignal::GcpOrd => self.u8(signals::GCP_ORD),
            EpochSignal::GcpStateReq => self.u8(signals::GCP_STATE_REQ),
            EpochSignal::GcpStateConf {
                current,
                prepared,
                next,
                closed,
                saved,
                durable,
            } => self.put_six(
                signals::GCP_STATE_CONF,
                *current,
                *prepared,
                *next,
                *closed,
                *saved,
                *durable,
            ),
            EpochSignal::MicroReq => self.u8(signals::MICRO_REQ),
            EpochSignal::GcpClosed { epoch } => self.put_u64(signals::GCP_CLOSED, *epoch),
            EpochSignal::MicroRep { epoch } => self.put_u64(signals::MICRO_REP, *epoch),
            EpochSignal::GcpClosedConf { epoch } => self.put_u64(signals::GCP_CLOSED_CONF, *epoch),
        }
    }
}
