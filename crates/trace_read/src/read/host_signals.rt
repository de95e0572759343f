//! Signals that any block may take.
ghost use Rattle.trace_read.specs.Reading.{GivesOrWants};
ghost use Rattle.trace_bytes.specs.HostSignals.{host_signal_of};

use crate::input::Input;
use crate::read::works::read_work;
use crate::stop::Stop;
use sig_core::{Body, HostSignal};
use std::alloc::Global;
use trace_bytes::kinds::signals;

/// A signal of this kind, one from `ROUND` to `CONTINUE`.
///
/// # Errors
/// Where a byte doesn't fit, and want of memory.
#[tactic(auto, unfolding(trace_bytes::specs::HostSignals::host_signal_of), using(crate::proofs::Stops::stops))]
pub fn host_signal_of(alloc: Global, input: &mut Input<'_>, number: u8) -> Result<Body, Stop>
    ensures { GivesOrWants result input.new (host_signal_of number input.old) }
{
    match number {
        signals::ROUND => Ok(Body::Host(HostSignal::Round)),
        signals::KILL => {
            let after = input.u32()?;
            Ok(Body::Host(HostSignal::Kill { after }))
        }
        signals::CUT => {
            let node = input.u8()?;
            let first = input.host()?;
            Ok(Body::Host(HostSignal::Cut { node, first }))
        }
        signals::CLOSED => {
            let cause = input.stop()?;
            Ok(Body::Host(HostSignal::Closed { cause }))
        }
        _ => {
            let work = read_work(alloc, input)?;
            let at = input.u64()?;
            Ok(Body::Host(HostSignal::Continue { work, at }))
        }
    }
}
