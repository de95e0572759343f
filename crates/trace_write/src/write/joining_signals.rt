//! Signals by which a node that starts joins the others.
ghost use Rattle.std.specs.Prelude.{◌≡◌, ◌∷◌, ◌++◌, OnOk};
ghost use Rattle.trace_bytes.specs.JoiningSignals.{joining_signal_bytes};

use crate::output::Output;
use sig_core::{JoiningSignal, NoMemory};
use trace_bytes::kinds::signals;

impl Output {
    /// Adds a signal of this family.
    #[tactic(auto, unfolding(trace_bytes::specs::JoiningSignals::joining_signal_bytes))]
    pub fn joining_signal(&mut self, signal: &JoiningSignal) -> Result<(), NoMemory>
        ensures { OnOk result (self.new ≡ self.old ++ joining_signal_bytes signal.now) }
    {
        match signal {
            JoiningSignal::StartReq { member, own } => self.put_member_opt_u64(
                signals::START_REQ,
                *member,
                *own,
            ),
            JoiningSignal::StartRep { member } => self.put_member(signals::START_REP, *member),
            JoiningSignal::StartEnd { member } => self.put_member(signals::START_END, *member),
            JoiningSignal::CopyOrd { member, own } => self.put_member_opt_u64(
                signals::COPY_ORD,
                *member,
                *own,
            ),
            JoiningSignal::DrainReq => self.u8(signals::DRAIN_REQ),
            JoiningSignal::DrainConf => self.u8(signals::DRAIN_CONF),
            JoiningSignal::DrainWait { tx } => self.put_tx(signals::DRAIN_WAIT, *tx),
            JoiningSignal::CopySaveReq => self.u8(signals::COPY_SAVE_REQ),
            JoiningSignal::CopySaveConf => self.u8(signals::COPY_SAVE_CONF),
            JoiningSignal::CopySaved => self.u8(signals::COPY_SAVED),
            JoiningSignal::PromoteReq { member } => self.put_member(signals::PROMOTE_REQ, *member),
            JoiningSignal::StartGone { member } => self.put_member(signals::START_GONE, *member),
        }
    }
}
