//! Signals of local checkpoints.
ghost use Rattle.trace_read.specs.Reading.{GivesOrWants};
ghost use Rattle.trace_bytes.specs.CheckpointSignals.{checkpoint_of};

use crate::input::Input;
use crate::stop::Stop;
use sig_core::{Body, CheckpointSignal};
use trace_bytes::kinds::signals;

/// A signal of this kind, one from `LCP_REQ` to `LCP_REP`.
///
/// # Errors
/// Where a byte doesn't fit, and want of memory.
#[tactic(auto, unfolding(trace_bytes::specs::CheckpointSignals::checkpoint_of), using(crate::proofs::Stops::stops))]
pub fn checkpoint_of(input: &mut Input<'_>, number: u8) -> Result<Body, Stop>
    ensures { GivesOrWants result input.new (checkpoint_of number input.old) }
{
    match number {
        signals::LCP_REQ => Ok(Body::Checkpoint(CheckpointSignal::LcpReq)),
        signals::LCP_FRAG_ORD => Ok(Body::Checkpoint(CheckpointSignal::LcpFragOrd)),
        signals::LCP_FRAG_REP => {
            let epoch = input.u64()?;
            Ok(Body::Checkpoint(CheckpointSignal::LcpFragRep { epoch }))
        }
        signals::LCP_SWITCH => Ok(Body::Checkpoint(CheckpointSignal::LcpSwitch)),
        signals::LCP_SWITCH_CONF => Ok(Body::Checkpoint(CheckpointSignal::LcpSwitchConf)),
        _ => {
            let epoch = input.u64()?;
            Ok(Body::Checkpoint(CheckpointSignal::LcpRep { epoch }))
        }
    }
}
