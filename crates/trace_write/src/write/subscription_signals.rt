//! Signals by which subscribers are told changes.
ghost use Rattle.std.specs.Prelude.{◌≡◌, ◌∷◌, ◌++◌, OnOk};
ghost use Rattle.trace_bytes.specs.SubscriptionSignals.{subscription_signal_bytes};

use crate::output::Output;
use sig_core::{NoMemory, SubscriptionSignal};
use trace_bytes::kinds::signals;

impl Output {
    /// Adds a signal of this family.
    #[tactic(auto, unfolding(trace_bytes::specs::SubscriptionSignals::subscription_signal_bytes))]
    pub fn subscription_signal(&mut self, signal: &SubscriptionSignal) -> Result<(), NoMemory>
        ensures { OnOk result (self.new ≡ self.old ++ subscription_signal_bytes signal.now) }
    {
        match signal {
            SubscriptionSignal::SumaChange { epoch, change } => self.put_u64_change(
                signals::SUMA_CHANGE,
                *epoch,
                change.get(),
            ),
            SubscriptionSignal::SumaClosed { epoch } => self.put_u64(signals::SUMA_CLOSED, *epoch),
            SubscriptionSignal::SubData {
                epoch,
                fragment,
                at,
                changes,
                last,
            } => self.put_u64_u8_u64_changes_bool(
                signals::SUB_DATA,
                *epoch,
                *fragment,
                *at,
                changes.as_slice(),
                *last,
            ),
            SubscriptionSignal::SubAck { epoch } => self.put_u64(signals::SUB_ACK, *epoch),
            SubscriptionSignal::SumaWait { epoch } => self.put_u64(signals::SUMA_WAIT, *epoch),
            SubscriptionSignal::SumaReady { epoch } => self.put_u64(signals::SUMA_READY, *epoch),
        }
    }
}
