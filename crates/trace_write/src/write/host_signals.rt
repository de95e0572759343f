//! Signals that any block may take.
ghost use Rattle.std.specs.Prelude.{◌≡◌, ◌∷◌, ◌++◌, OnOk};
ghost use Rattle.trace_bytes.specs.HostSignals.{host_signal_bytes};

use crate::output::Output;
use sig_core::{HostSignal, NoMemory};
use trace_bytes::kinds::signals;

impl Output {
    /// Adds a signal of this family.
    #[tactic(auto, unfolding(trace_bytes::specs::HostSignals::host_signal_bytes))]
    pub fn host_signal(&mut self, signal: &HostSignal) -> Result<(), NoMemory>
        ensures { OnOk result (self.new ≡ self.old ++ host_signal_bytes signal.now) }
    {
        match signal {
            HostSignal::Round => self.u8(signals::ROUND),
            HostSignal::Kill { after } => self.put_u32(signals::KILL, *after),
            HostSignal::Cut { node, first } => self.put_u8_host(signals::CUT, *node, *first),
            HostSignal::Closed { cause } => self.put_stop(signals::CLOSED, cause),
            HostSignal::Continue { work, at } => self.put_work_u64(signals::CONTINUE, work, *at),
        }
    }
}
