//! Signals of local checkpoints.
ghost use Rattle.std.specs.Prelude.{◌≡◌, ◌∷◌, ◌++◌, OnOk};
ghost use Rattle.trace_bytes.specs.CheckpointSignals.{checkpoint_signal_bytes};

use crate::output::Output;
use sig_core::{CheckpointSignal, NoMemory};
use trace_bytes::kinds::signals;

impl Output {
    /// Adds a signal of this family.
    #[tactic(auto, unfolding(trace_bytes::specs::CheckpointSignals::checkpoint_signal_bytes))]
    pub fn checkpoint_signal(&mut self, signal: &CheckpointSignal) -> Result<(), NoMemory>
        ensures { OnOk result (self.new ≡ self.old ++ checkpoint_signal_bytes signal.now) }
    {
        match signal {
            CheckpointSignal::LcpReq => self.u8(signals::LCP_REQ),
            CheckpointSignal::LcpFragOrd => self.u8(signals::LCP_FRAG_ORD),
            CheckpointSignal::LcpFragRep { epoch } => self.put_u64(signals::LCP_FRAG_REP, *epoch),
            CheckpointSignal::LcpSwitch => self.u8(signals::LCP_SWITCH),
            CheckpointSignal::LcpSwitchConf => self.u8(signals::LCP_SWITCH_CONF),
            CheckpointSignal::LcpRep { epoch } => self.put_u64(signals::LCP_REP, *epoch),
        }
    }
}
