//! Signals of epochs and global checkpoints.
ghost use Rattle.trace_read.specs.Reading.{GivesOrWants};
ghost use Rattle.trace_bytes.specs.EpochSignals.{deciding_of, closing_of, saving_of, micro_of};

use crate::input::Input;
use crate::read::lists::read_list;
use crate::stop::Stop;
use sig_core::{Body, EpochSignal, HeldAnswer, HeldOp};
use std::alloc::Global;
use trace_bytes::kinds::signals;

/// A signal of this kind, one from `DI_VERIFY_REQ` to `GCP_REQ`.
///
/// # Errors
/// Where a byte doesn't fit, and want of memory.
#[tactic(auto, unfolding(trace_bytes::specs::EpochSignals::deciding_of), using(crate::proofs::Stops::stops))]
pub fn deciding_of(alloc: Global, input: &mut Input<'_>, number: u8) -> Result<Body, Stop>
    ensures { GivesOrWants result input.new (deciding_of number input.old) }
{
    match number {
        signals::DI_VERIFY_REQ => {
            let tx = input.tx()?;
            let ops = read_list::<(HeldOp, HeldAnswer)>(alloc, input)?;
            Ok(Body::Epoch(EpochSignal::DiVerifyReq { tx, ops }))
        }
        signals::DI_VERIFY_CONF => {
            let tx = input.tx()?;
            let epoch = input.u64()?;
            Ok(Body::Epoch(EpochSignal::DiVerifyConf { tx, epoch }))
        }
        signals::DI_VERIFY_END => {
            let tx = input.tx()?;
            Ok(Body::Epoch(EpochSignal::DiVerifyEnd { tx }))
        }
        _ => {
            let by = input.block()?;
            Ok(Body::Epoch(EpochSignal::GcpReq { by }))
        }
    }
}

/// A signal of this kind, one from `GCP_PREPARE` to `GCP_SAVE_CONF`.
///
/// # Errors
/// Where a byte doesn't fit, and want of memory.
#[tactic(auto, unfolding(trace_bytes::specs::EpochSignals::closing_of), using(crate::proofs::Stops::stops))]
pub fn closing_of(input: &mut Input<'_>, number: u8) -> Result<Body, Stop>
    ensures { GivesOrWants result input.new (closing_of number input.old) }
{
    match number {
        signals::GCP_PREPARE => {
            let epoch = input.u64()?;
            let next = input.u64()?;
            Ok(Body::Epoch(EpochSignal::GcpPrepare { epoch, next }))
        }
        signals::GCP_PREPARE_CONF => {
            let epoch = input.u64()?;
            Ok(Body::Epoch(EpochSignal::GcpPrepareConf { epoch }))
        }
        signals::GCP_COMMIT => {
            let epoch = input.u64()?;
            let next = input.u64()?;
            Ok(Body::Epoch(EpochSignal::GcpCommit { epoch, next }))
        }
        signals::GCP_NODE_FINISH => {
            let epoch = input.u64()?;
            Ok(Body::Epoch(EpochSignal::GcpNodeFinish { epoch }))
        }
        signals::GCP_SAVE_REQ => {
            let epoch = input.u64()?;
            Ok(Body::Epoch(EpochSignal::GcpSaveReq { epoch }))
        }
        _ => {
            let epoch = input.u64()?;
            Ok(Body::Epoch(EpochSignal::GcpSaveConf { epoch }))
        }
    }
}

/// A signal of this kind, one from `COPY_GCI_REQ` to `GCP_STATE_CONF`.
///
/// # Errors
/// Where a byte doesn't fit, and want of memory.
#[tactic(auto, unfolding(trace_bytes::specs::EpochSignals::saving_of), using(crate::proofs::Stops::stops))]
pub fn saving_of(input: &mut Input<'_>, number: u8) -> Result<Body, Stop>
    ensures { GivesOrWants result input.new (saving_of number input.old) }
{
    match number {
        signals::COPY_GCI_REQ => {
            let epoch = input.u64()?;
            let mask = input.u8()?;
            Ok(Body::Epoch(EpochSignal::CopyGciReq { epoch, mask }))
        }
        signals::COPY_GCI_CONF => {
            let epoch = input.u64()?;
            Ok(Body::Epoch(EpochSignal::CopyGciConf { epoch }))
        }
        signals::GCP_DONE => {
            let epoch = input.u64()?;
            Ok(Body::Epoch(EpochSignal::GcpDone { epoch }))
        }
        signals::GCP_REP => {
            let epoch = input.u64()?;
            Ok(Body::Epoch(EpochSignal::GcpRep { epoch }))
        }
        signals::GCP_ORD => Ok(Body::Epoch(EpochSignal::GcpOrd)),
        signals::GCP_STATE_REQ => Ok(Body::Epoch(EpochSignal::GcpStateReq)),
        _ => {
            let current = input.u64()?;
            let prepared = input.u64()?;
            let next = input.u64()?;
            let closed = input.u64()?;
            let saved = input.u64()?;
            let durable = input.u64()?;
            Ok(Body::Epoch(EpochSignal::GcpStateConf {
                current,
                prepared,
                next,
                closed,
                saved,
                durable,
            }))
        }
    }
}

/// A signal of this kind, one from `MICRO_REQ` to `GCP_CLOSED_CONF`.
///
/// # Errors
/// Where a byte doesn't fit, and want of memory.
#[tactic(auto, unfolding(trace_bytes::specs::EpochSignals::micro_of), using(crate::proofs::Stops::stops))]
pub fn micro_of(input: &mut Input<'_>, number: u8) -> Result<Body, Stop>
    ensures { GivesOrWants result input.new (micro_of number input.old) }
{
    match number {
        signals::MICRO_REQ => Ok(Body::Epoch(EpochSignal::MicroReq)),
        signals::GCP_CLOSED => {
            let epoch = input.u64()?;
            Ok(Body::Epoch(EpochSignal::GcpClosed { epoch }))
        }
        signals::MICRO_REP => {
            let epoch = input.u64()?;
            Ok(Body::Epoch(EpochSignal::MicroRep { epoch }))
        }
        _ => {
            let epoch = input.u64()?;
            Ok(Body::Epoch(EpochSignal::GcpClosedConf { epoch }))
        }
    }
}
