//! Signals by which a node that starts joins the others.
ghost use Rattle.trace_read.specs.Reading.{GivesOrWants};
ghost use Rattle.trace_bytes.specs.JoiningSignals.{starting_of, draining_of, joined_of};

use crate::input::Input;
use crate::stop::Stop;
use sig_core::{Body, JoiningSignal};
use trace_bytes::kinds::signals;

/// A signal of this kind, one from `START_REQ` to `COPY_ORD`.
///
/// # Errors
/// Where a byte doesn't fit, and want of memory.
#[tactic(auto, unfolding(trace_bytes::specs::JoiningSignals::starting_of), using(crate::proofs::Stops::stops))]
pub fn starting_of(input: &mut Input<'_>, number: u8) -> Result<Body, Stop>
    ensures { GivesOrWants result input.new (starting_of number input.old) }
{
    match number {
        signals::START_REQ => {
            let member = input.member()?;
            let own = input.opt_u64()?;
            Ok(Body::Joining(JoiningSignal::StartReq { member, own }))
        }
        signals::START_REP => {
            let member = input.member()?;
            Ok(Body::Joining(JoiningSignal::StartRep { member }))
        }
        signals::START_END => {
            let member = input.member()?;
            Ok(Body::Joining(JoiningSignal::StartEnd { member }))
        }
        _ => {
            let member = input.member()?;
            let own = input.opt_u64()?;
            Ok(Body::Joining(JoiningSignal::CopyOrd { member, own }))
        }
    }
}

/// A signal of this kind, one from `DRAIN_REQ` to `DRAIN_WAIT`.
///
/// # Errors
/// Where a byte doesn't fit, and want of memory.
#[tactic(auto, unfolding(trace_bytes::specs::JoiningSignals::draining_of), using(crate::proofs::Stops::stops))]
pub fn draining_of(input: &mut Input<'_>, number: u8) -> Result<Body, Stop>
    ensures { GivesOrWants result input.new (draining_of number input.old) }
{
    match number {
        signals::DRAIN_REQ => Ok(Body::Joining(JoiningSignal::DrainReq)),
        signals::DRAIN_CONF => Ok(Body::Joining(JoiningSignal::DrainConf)),
        _ => {
            let tx = input.tx()?;
            Ok(Body::Joining(JoiningSignal::DrainWait { tx }))
        }
    }
}

/// A signal of this kind, one from `COPY_SAVE_REQ` to `START_GONE`.
///
/// # Errors
/// Where a byte doesn't fit, and want of memory.
#[tactic(auto, unfolding(trace_bytes::specs::JoiningSignals::joined_of), using(crate::proofs::Stops::stops))]
pub fn joined_of(input: &mut Input<'_>, number: u8) -> Result<Body, Stop>
    ensures { GivesOrWants result input.new (joined_of number input.old) }
{
    match number {
        signals::COPY_SAVE_REQ => Ok(Body::Joining(JoiningSignal::CopySaveReq)),
        signals::COPY_SAVE_CONF => Ok(Body::Joining(JoiningSignal::CopySaveConf)),
        signals::COPY_SAVED => Ok(Body::Joining(JoiningSignal::CopySaved)),
        signals::PROMOTE_REQ => {
            let member = input.member()?;
            Ok(Body::Joining(JoiningSignal::PromoteReq { member }))
        }
        _ => {
            let member = input.member()?;
            Ok(Body::Joining(JoiningSignal::StartGone { member }))
        }
    }
}
