//! Signals by which the transactions of a failed coordinator are ended.
ghost use Rattle.std.specs.Prelude.{◌≡◌, ◌∷◌, ◌++◌, OnOk};
ghost use Rattle.trace_bytes.specs.TakeoverSignals.{takeover_signal_bytes};

use crate::output::Output;
use sig_core::{NoMemory, TakeoverSignal};
use trace_bytes::kinds::signals;

impl Output {
    /// Adds a signal of this family.
    #[tactic(auto, unfolding(trace_bytes::specs::TakeoverSignals::takeover_signal_bytes))]
    pub fn takeover_signal(&mut self, signal: &TakeoverSignal) -> Result<(), NoMemory>
        ensures { OnOk result (self.new ≡ self.old ++ takeover_signal_bytes signal.now) }
    {
        match signal {
            TakeoverSignal::TakeoverOrd => self.u8(signals::TAKEOVER_ORD),
            TakeoverSignal::LqhTransReq => self.u8(signals::LQH_TRANS_REQ),
            TakeoverSignal::LqhTransConf {
                tx,
                key,
                state,
                epoch,
            } => self.put_tx_key_state_u64(signals::LQH_TRANS_CONF, *tx, key, *state, *epoch),
            TakeoverSignal::LqhTransEnd => self.u8(signals::LQH_TRANS_END),
            TakeoverSignal::TakeoverEnd => self.u8(signals::TAKEOVER_END),
        }
    }
}
