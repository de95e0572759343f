//! Signals by which the transactions of a failed coordinator are ended.
ghost use Rattle.trace_read.specs.Reading.{GivesOrWants};
ghost use Rattle.trace_bytes.specs.TakeoverSignals.{takeover_of};

use crate::input::Input;
use crate::stop::Stop;
use sig_core::{Body, TakeoverSignal};
use trace_bytes::kinds::signals;

/// A signal of this kind, one from `TAKEOVER_ORD` to `TAKEOVER_END`.
///
/// # Errors
/// Where a byte doesn't fit, and want of memory.
#[tactic(auto, unfolding(trace_bytes::specs::TakeoverSignals::takeover_of), using(crate::proofs::Stops::stops))]
pub fn takeover_of(input: &mut Input<'_>, number: u8) -> Result<Body, Stop>
    ensures { GivesOrWants result input.new (takeover_of number input.old) }
{
    match number {
        signals::TAKEOVER_ORD => Ok(Body::Takeover(TakeoverSignal::TakeoverOrd)),
        signals::LQH_TRANS_REQ => Ok(Body::Takeover(TakeoverSignal::LqhTransReq)),
        signals::LQH_TRANS_CONF => {
            let tx = input.tx()?;
            let key = input.key()?;
            let state = input.state()?;
            let epoch = input.u64()?;
            Ok(Body::Takeover(TakeoverSignal::LqhTransConf {
                tx,
                key,
                state,
                epoch,
            }))
        }
        signals::LQH_TRANS_END => Ok(Body::Takeover(TakeoverSignal::LqhTransEnd)),
        _ => Ok(Body::Takeover(TakeoverSignal::TakeoverEnd)),
    }
}
