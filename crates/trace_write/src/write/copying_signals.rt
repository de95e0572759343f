//! Signals by which rows are copied to a node that starts.
ghost use Rattle.std.specs.Prelude.{◌≡◌, ◌∷◌, ◌++◌, OnOk};
ghost use Rattle.trace_bytes.specs.CopyingSignals.{copying_signal_bytes};

use crate::output::Output;
use sig_core::{CopyingSignal, NoMemory};
use trace_bytes::kinds::signals;

impl Output {
    /// Adds a signal of this family.
    #[tactic(auto, unfolding(trace_bytes::specs::CopyingSignals::copying_signal_bytes))]
    pub fn copying_signal(&mut self, signal: &CopyingSignal) -> Result<(), NoMemory>
        ensures { OnOk result (self.new ≡ self.old ++ copying_signal_bytes signal.now) }
    {
        match signal {
            CopyingSignal::CopyFragReq {
                member,
                fragment,
                own,
            } => self.put_member_u8_opt_u64(signals::COPY_FRAG_REQ, *member, *fragment, *own),
            CopyingSignal::LqhScanReq { fragment, at } => self.put_u8_u64(
                signals::LQH_SCAN_REQ,
                *fragment,
                *at,
            ),
            CopyingSignal::LqhScanConf { row, epoch, next } => self.put_opt_row_u64_opt_u64(
                signals::LQH_SCAN_CONF,
                row,
                *epoch,
                *next,
            ),
            CopyingSignal::CopyRowReq { row, epoch } => self.put_row_u64(
                signals::COPY_ROW_REQ,
                row.get(),
                *epoch,
            ),
            CopyingSignal::CopyRowConf => self.u8(signals::COPY_ROW_CONF),
            CopyingSignal::LqhUnlock { key } => self.put_key(signals::LQH_UNLOCK, key),
            CopyingSignal::CopyFragConf => self.u8(signals::COPY_FRAG_CONF),
            CopyingSignal::CopyKeyReq { key, epoch } => self.put_key_u64(
                signals::COPY_KEY_REQ,
                key,
                *epoch,
            ),
            CopyingSignal::CopyKeyConf => self.u8(signals::COPY_KEY_CONF),
            CopyingSignal::CopyKeyRef => self.u8(signals::COPY_KEY_REF),
        }
    }
}
