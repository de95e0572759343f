//! Signals between the API and the blocks that serve it.
ghost use Rattle.trace_read.specs.Reading.{GivesOrWants};
ghost use Rattle.trace_bytes.specs.ClientSignals.{opening_of, ending_of, failing_of, asking_of};

use crate::input::Input;
use crate::read::lists::read_list;
use crate::stop::Stop;
use sig_core::{Body, ClientSignal, HeldAnswer, HeldOp, Key, Value};
use std::alloc::Global;
use trace_bytes::kinds::signals;

/// A signal of this kind, one from `TC_BEGIN_REQ` to `TC_KEY_CONF`.
///
/// # Errors
/// Where a byte doesn't fit, and want of memory.
#[tactic(auto, unfolding(trace_bytes::specs::ClientSignals::opening_of), using(crate::proofs::Stops::stops))]
pub fn opening_of(alloc: Global, input: &mut Input<'_>, number: u8) -> Result<Body, Stop>
    ensures { GivesOrWants result input.new (opening_of number input.old) }
{
    match number {
        signals::TC_BEGIN_REQ => {
            let name = input.name()?;
            Ok(Body::Client(ClientSignal::TcBeginReq { name }))
        }
        signals::TC_BEGIN_CONF => {
            let name = input.name()?;
            let tx = input.tx()?;
            Ok(Body::Client(ClientSignal::TcBeginConf { name, tx }))
        }
        signals::TC_BEGIN_REF => {
            let name = input.name()?;
            Ok(Body::Client(ClientSignal::TcBeginRef { name }))
        }
        signals::TC_KEY_REQ => {
            let tx = input.tx()?;
            let op = input.op()?;
            Ok(Body::Client(ClientSignal::TcKeyReq {
                tx,
                op: HeldOp::new(alloc, op)?,
            }))
        }
        _ => {
            let tx = input.tx()?;
            let answer = input.answer()?;
            Ok(Body::Client(ClientSignal::TcKeyConf {
                tx,
                answer: HeldAnswer::new(alloc, &answer)?,
            }))
        }
    }
}

/// A signal of this kind, one from `TC_COMMIT_REQ` to `TC_ROLLBACK_REP`.
///
/// # Errors
/// Where a byte doesn't fit, and want of memory.
#[tactic(auto, unfolding(trace_bytes::specs::ClientSignals::ending_of), using(crate::proofs::Stops::stops))]
pub fn ending_of(input: &mut Input<'_>, number: u8) -> Result<Body, Stop>
    ensures { GivesOrWants result input.new (ending_of number input.old) }
{
    match number {
        signals::TC_COMMIT_REQ => {
            let tx = input.tx()?;
            Ok(Body::Client(ClientSignal::TcCommitReq { tx }))
        }
        signals::TC_COMMIT_CONF => {
            let tx = input.tx()?;
            let epoch = input.u64()?;
            Ok(Body::Client(ClientSignal::TcCommitConf { tx, epoch }))
        }
        signals::TC_COMMIT_ACK => {
            let tx = input.tx()?;
            Ok(Body::Client(ClientSignal::TcCommitAck { tx }))
        }
        signals::TC_ROLLBACK_REQ => {
            let tx = input.tx()?;
            Ok(Body::Client(ClientSignal::TcRollbackReq { tx }))
        }
        _ => {
            let tx = input.tx()?;
            let cause = input.cause()?;
            Ok(Body::Client(ClientSignal::TcRollbackRep { tx, cause }))
        }
    }
}

/// A signal of this kind, one from `TC_KEY_FAIL_CONF` to `VIEW_REP`.
///
/// # Errors
/// Where a byte doesn't fit, and want of memory.
#[tactic(auto, unfolding(trace_bytes::specs::ClientSignals::failing_of), using(crate::proofs::Stops::stops))]
pub fn failing_of(input: &mut Input<'_>, number: u8) -> Result<Body, Stop>
    ensures { GivesOrWants result input.new (failing_of number input.old) }
{
    match number {
        signals::TC_KEY_FAIL_CONF => {
            let tx = input.tx()?;
            let epoch = input.u64()?;
            Ok(Body::Client(ClientSignal::TcKeyFailConf { tx, epoch }))
        }
        signals::TC_KEY_FAIL_REF => {
            let tx = input.tx()?;
            Ok(Body::Client(ClientSignal::TcKeyFailRef { tx }))
        }
        signals::NF_COMPLETE_REP => Ok(Body::Client(ClientSignal::NfCompleteRep)),
        _ => Ok(Body::Client(ClientSignal::ViewRep)),
    }
}

/// A signal of this kind, one from `TC_WAIT_REQ` to `DUMP_CONF`.
///
/// # Errors
/// Where a byte doesn't fit, and want of memory.
#[tactic(auto, unfolding(trace_bytes::specs::ClientSignals::asking_of), using(crate::proofs::Stops::stops))]
pub fn asking_of(alloc: Global, input: &mut Input<'_>, number: u8) -> Result<Body, Stop>
    ensures { GivesOrWants result input.new (asking_of number input.old) }
{
    match number {
        signals::TC_WAIT_REQ => {
            let tx = input.tx()?;
            Ok(Body::Client(ClientSignal::TcWaitReq { tx }))
        }
        signals::LQH_WAIT_REQ => {
            let tx = input.tx()?;
            let key = input.key()?;
            Ok(Body::Client(ClientSignal::LqhWaitReq { tx, key }))
        }
        signals::LQH_WAIT_CONF => {
            let tx = input.tx()?;
            let ahead = input.tx()?;
            Ok(Body::Client(ClientSignal::LqhWaitConf { tx, ahead }))
        }
        signals::TC_WAIT_CONF => {
            let tx = input.tx()?;
            let ahead = input.tx()?;
            Ok(Body::Client(ClientSignal::TcWaitConf { tx, ahead }))
        }
        signals::DUMP_REQ => {
            let at = input.u64()?;
            Ok(Body::Client(ClientSignal::DumpReq { at }))
        }
        _ => {
            let rows = read_list::<(Key, Value)>(alloc, input)?;
            let next = input.opt_u64()?;
            Ok(Body::Client(ClientSignal::DumpConf { rows, next }))
        }
    }
}
