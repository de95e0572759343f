//! Signals along the chain of a row's replicas.
ghost use Rattle.trace_read.specs.Reading.{GivesOrWants};
ghost use Rattle.trace_bytes.specs.ChainSignals.{preparing_of, committing_of};

use crate::input::Input;
use crate::read::held::read_row_work;
use crate::stop::Stop;
use sig_core::{Body, Chain, ChainSignal, HeldAnswer};
use std::alloc::Global;
use trace_bytes::kinds::signals;

/// A signal of this kind, one from `LQH_KEY_REQ` to `LQH_KEY_REF`.
///
/// # Errors
/// Where a byte doesn't fit, and want of memory.
#[tactic(auto, unfolding(trace_bytes::specs::ChainSignals::preparing_of), using(crate::proofs::Stops::stops))]
pub fn preparing_of(alloc: Global, input: &mut Input<'_>, number: u8) -> Result<Body, Stop>
    ensures { GivesOrWants result input.new (preparing_of number input.old) }
{
    match number {
        signals::LQH_KEY_REQ => {
            let tx = input.tx()?;
            let work = read_row_work(alloc, input)?;
            let chain = input.members()?;
            let at = input.u8()?;
            Ok(Body::Chain(ChainSignal::LqhKeyReq {
                tx,
                work,
                chain: Chain::of(&chain),
                at,
            }))
        }
        signals::LQH_KEY_CONF => {
            let tx = input.tx()?;
            let key = input.key()?;
            let answer = input.answer()?;
            Ok(Body::Chain(ChainSignal::LqhKeyConf {
                tx,
                key,
                answer: HeldAnswer::new(alloc, &answer)?,
            }))
        }
        _ => {
            let tx = input.tx()?;
            let key = input.key()?;
            let cause = input.cause()?;
            Ok(Body::Chain(ChainSignal::LqhKeyRef { tx, key, cause }))
        }
    }
}

/// A signal of this kind, one from `COMMIT` to `ABORTED`.
///
/// # Errors
/// Where a byte doesn't fit, and want of memory.
#[tactic(auto, unfolding(trace_bytes::specs::ChainSignals::committing_of), using(crate::proofs::Stops::stops))]
pub fn committing_of(input: &mut Input<'_>, number: u8) -> Result<Body, Stop>
    ensures { GivesOrWants result input.new (committing_of number input.old) }
{
    match number {
        signals::COMMIT => {
            let tx = input.tx()?;
            let key = input.key()?;
            let epoch = input.u64()?;
            let chain = input.members()?;
            let at = input.u8()?;
            Ok(Body::Chain(ChainSignal::Commit {
                tx,
                key,
                epoch,
                chain: Chain::of(&chain),
                at,
            }))
        }
        signals::COMMITTED => {
            let tx = input.tx()?;
            let key = input.key()?;
            Ok(Body::Chain(ChainSignal::Committed { tx, key }))
        }
        signals::COMPLETE => {
            let tx = input.tx()?;
            let key = input.key()?;
            let chain = input.members()?;
            let at = input.u8()?;
            Ok(Body::Chain(ChainSignal::Complete {
                tx,
                key,
                chain: Chain::of(&chain),
                at,
            }))
        }
        signals::COMPLETED => {
            let tx = input.tx()?;
            let key = input.key()?;
            Ok(Body::Chain(ChainSignal::Completed { tx, key }))
        }
        signals::ABORT => {
            let tx = input.tx()?;
            let key = input.key()?;
            Ok(Body::Chain(ChainSignal::Abort { tx, key }))
        }
        _ => {
            let tx = input.tx()?;
            let key = input.key()?;
            Ok(Body::Chain(ChainSignal::Aborted { tx, key }))
        }
    }
}
