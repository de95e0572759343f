//! Signals of operations where values are unique.
ghost use Rattle.std.specs.Prelude.{◌≡◌, ◌∷◌, ◌++◌, OnOk};
ghost use Rattle.trace_bytes.specs.UniqueSignals.{unique_signal_bytes};

use crate::output::Output;
use sig_core::{NoMemory, UniqueSignal};
use trace_bytes::kinds::signals;

impl Output {
    /// Adds a signal of this family.
    #[tactic(auto, unfolding(trace_bytes::specs::UniqueSignals::unique_signal_bytes))]
    pub fn unique_signal(&mut self, signal: &UniqueSignal) -> Result<(), NoMemory>
        ensures { OnOk result (self.new ≡ self.old ++ unique_signal_bytes signal.now) }
    {
        match signal {
            UniqueSignal::TcUniqueReq { tx, op } => self.put_tx_op(
                signals::TC_UNIQUE_REQ,
                *tx,
                op.get(),
            ),
            UniqueSignal::TcUniqueConf { tx, answer } => self.put_tx_uanswer(
                signals::TC_UNIQUE_CONF,
                *tx,
                answer.get(),
            ),
        }
    }
}
