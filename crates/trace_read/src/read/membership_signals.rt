//! Signals by which the members agree on views.
ghost use Rattle.trace_read.specs.Reading.{GivesOrWants};
ghost use Rattle.trace_bytes.specs.MembershipSignals.{promising_of, granting_of};

use crate::input::Input;
use crate::stop::Stop;
use sig_core::{Body, Held, MembershipSignal};
use std::alloc::Global;
use trace_bytes::kinds::signals;

/// A signal of this kind, one from `HEARTBEAT` to `PREP_FAIL_REF`.
///
/// # Errors
/// Where a byte doesn't fit, and want of memory.
#[tactic(auto, unfolding(trace_bytes::specs::MembershipSignals::promising_of), using(crate::proofs::Stops::stops))]
pub fn promising_of(alloc: Global, input: &mut Input<'_>, number: u8) -> Result<Body, Stop>
    ensures { GivesOrWants result input.new (promising_of number input.old) }
{
    match number {
        signals::HEARTBEAT => Ok(Body::Membership(MembershipSignal::Heartbeat)),
        signals::FAIL_REP => {
            let suspects = input.members()?;
            Ok(Body::Membership(MembershipSignal::FailRep { suspects }))
        }
        signals::PREP_FAIL_REQ => {
            let proposal = input.view()?;
            Ok(Body::Membership(MembershipSignal::PrepFailReq {
                proposal: Held::new(alloc, proposal)?,
            }))
        }
        signals::FENCE_REQ => {
            let proposal = input.view()?;
            Ok(Body::Membership(MembershipSignal::FenceReq {
                proposal: Held::new(alloc, proposal)?,
            }))
        }
        signals::FENCE_CONF => Ok(Body::Membership(MembershipSignal::FenceConf)),
        signals::PREP_FAIL_CONF => {
            let number = input.u64()?;
            Ok(Body::Membership(MembershipSignal::PrepFailConf { number }))
        }
        _ => {
            let promised = input.view()?;
            Ok(Body::Membership(MembershipSignal::PrepFailRef {
                promised: Held::new(alloc, promised)?,
            }))
        }
    }
}

/// A signal of this kind, one from `ARBIT_REQ` to `COMMIT_FAIL_REQ`.
///
/// # Errors
/// Where a byte doesn't fit, and want of memory.
#[tactic(auto, unfolding(trace_bytes::specs::MembershipSignals::granting_of), using(crate::proofs::Stops::stops))]
pub fn granting_of(input: &mut Input<'_>, number: u8) -> Result<Body, Stop>
    ensures { GivesOrWants result input.new (granting_of number input.old) }
{
    match number {
        signals::ARBIT_REQ => {
            let number = input.u64()?;
            let members = input.members()?;
            let joining = input.opt_member()?;
            Ok(Body::Membership(MembershipSignal::ArbitReq {
                number,
                members,
                joining,
            }))
        }
        signals::ARBIT_CONF => {
            let number = input.u64()?;
            Ok(Body::Membership(MembershipSignal::ArbitConf { number }))
        }
        signals::ARBIT_REF => {
            let number = input.u64()?;
            let members = input.members()?;
            Ok(Body::Membership(MembershipSignal::ArbitRef { number, members }))
        }
        signals::STOP_SET => {
            let cause = input.stop()?;
            Ok(Body::Membership(MembershipSignal::StopSet { cause }))
        }
        _ => Ok(Body::Membership(MembershipSignal::CommitFailReq)),
    }
}
