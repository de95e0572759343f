//! Signals by which rows are copied to a node that starts.
ghost use Rattle.trace_read.specs.Reading.{GivesOrWants};
ghost use Rattle.trace_bytes.specs.CopyingSignals.{copying_of, own_rows_of};

use crate::input::Input;
use crate::read::held::held_row;
use crate::stop::Stop;
use sig_core::{Body, CopyingSignal, Held};
use std::alloc::Global;
use trace_bytes::kinds::signals;

/// A signal of this kind, one from `COPY_FRAG_REQ` to `COPY_FRAG_CONF`.
///
/// # Errors
/// Where a byte doesn't fit, and want of memory.
#[tactic(auto, unfolding(trace_bytes::specs::CopyingSignals::copying_of), using(crate::proofs::Stops::stops))]
pub fn copying_of(alloc: Global, input: &mut Input<'_>, number: u8) -> Result<Body, Stop>
    ensures { GivesOrWants result input.new (copying_of number input.old) }
{
    match number {
        signals::COPY_FRAG_REQ => {
            let member = input.member()?;
            let fragment = input.u8()?;
            let own = input.opt_u64()?;
            Ok(Body::Copying(CopyingSignal::CopyFragReq {
                member,
                fragment,
                own,
            }))
        }
        signals::LQH_SCAN_REQ => {
            let fragment = input.u8()?;
            let at = input.u64()?;
            Ok(Body::Copying(CopyingSignal::LqhScanReq { fragment, at }))
        }
        signals::LQH_SCAN_CONF => {
            let row = input.opt_row()?;
            let epoch = input.u64()?;
            let next = input.opt_u64()?;
            Ok(Body::Copying(CopyingSignal::LqhScanConf {
                row: held_row(alloc, row)?,
                epoch,
                next,
            }))
        }
        signals::COPY_ROW_REQ => {
            let row = input.row()?;
            let epoch = input.u64()?;
            Ok(Body::Copying(CopyingSignal::CopyRowReq {
                row: Held::new(alloc, row)?,
                epoch,
            }))
        }
        signals::COPY_ROW_CONF => Ok(Body::Copying(CopyingSignal::CopyRowConf)),
        signals::LQH_UNLOCK => {
            let key = input.key()?;
            Ok(Body::Copying(CopyingSignal::LqhUnlock { key }))
        }
        _ => Ok(Body::Copying(CopyingSignal::CopyFragConf)),
    }
}

/// A signal of this kind, one from `COPY_KEY_REQ` to `COPY_KEY_REF`.
///
/// # Errors
/// Where a byte doesn't fit, and want of memory.
#[tactic(auto, unfolding(trace_bytes::specs::CopyingSignals::own_rows_of), using(crate::proofs::Stops::stops))]
pub fn own_rows_of(input: &mut Input<'_>, number: u8) -> Result<Body, Stop>
    ensures { GivesOrWants result input.new (own_rows_of number input.old) }
{
    match number {
        signals::COPY_KEY_REQ => {
            let key = input.key()?;
            let epoch = input.u64()?;
            Ok(Body::Copying(CopyingSignal::CopyKeyReq { key, epoch }))
        }
        signals::COPY_KEY_CONF => Ok(Body::Copying(CopyingSignal::CopyKeyConf)),
        _ => Ok(Body::Copying(CopyingSignal::CopyKeyRef)),
    }
}
