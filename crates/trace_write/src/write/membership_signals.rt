//! Signals by which the members agree on views.
ghost use Rattle.std.specs.Prelude.{◌≡◌, ◌∷◌, ◌++◌, OnOk};
ghost use Rattle.trace_bytes.specs.MembershipSignals.{membership_signal_bytes};

use crate::output::Output;
use sig_core::{MembershipSignal, NoMemory};
use trace_bytes::kinds::signals;

impl Output {
    /// Adds a signal of this family.
    #[tactic(auto, unfolding(trace_bytes::specs::MembershipSignals::membership_signal_bytes))]
    pub fn membership_signal(&mut self, signal: &MembershipSignal) -> Result<(), NoMemory>
        ensures { OnOk result (self.new ≡ self.old ++ membership_signal_bytes signal.now) }
    {
        match signal {
            MembershipSignal::Heartbeat => self.u8(signals::HEARTBEAT),
            MembershipSignal::FailRep { suspects } => self.put_members(signals::FAIL_REP, suspects),
            MembershipSignal::PrepFailReq { proposal } => self.put_view(
                signals::PREP_FAIL_REQ,
                proposal.get(),
            ),
            MembershipSignal::FenceReq { proposal } => self.put_view(
                signals::FENCE_REQ,
                proposal.get(),
            ),
            MembershipSignal::FenceConf => self.u8(signals::FENCE_CONF),
            MembershipSignal::PrepFailConf { number } => self.put_u64(
                signals::PREP_FAIL_CONF,
                *number,
            ),
            MembershipSignal::PrepFailRef { promised } => self.put_view(
                signals::PREP_FAIL_REF,
                promised.get(),
            ),
            MembershipSignal::ArbitReq {
                number,
                members,
                joining,
            } => self.put_u64_members_opt_member(signals::ARBIT_REQ, *number, members, *joining),
            MembershipSignal::ArbitConf { number } => self.put_u64(signals::ARBIT_CONF, *number),
            MembershipSignal::ArbitRef { number, members } => self.put_u64_members(
                signals::ARBIT_REF,
                *number,
                members,
            ),
            MembershipSignal::StopSet { cause } => self.put_stop(signals::STOP_SET, cause),
            MembershipSignal::CommitFailReq => self.u8(signals::COMMIT_FAIL_REQ),
        }
    }
}
