//! Signals by which subscribers are told changes.
ghost use Rattle.trace_read.specs.Reading.{GivesOrWants};
ghost use Rattle.trace_bytes.specs.SubscriptionSignals.{subscription_of};

use crate::input::Input;
use crate::read::lists::read_list;
use crate::stop::Stop;
use sig_core::{Body, Change, Held, SubscriptionSignal};
use std::alloc::Global;
use trace_bytes::kinds::signals;

/// A signal of this kind, one from `SUMA_CHANGE` to `SUMA_READY`.
///
/// # Errors
/// Where a byte doesn't fit, and want of memory.
#[tactic(auto, unfolding(trace_bytes::specs::SubscriptionSignals::subscription_of), using(crate::proofs::Stops::stops))]
pub fn subscription_of(alloc: Global, input: &mut Input<'_>, number: u8) -> Result<Body, Stop>
    ensures { GivesOrWants result input.new (subscription_of number input.old) }
{
    match number {
        signals::SUMA_CHANGE => {
            let epoch = input.u64()?;
            let change = input.change()?;
            Ok(Body::Subscription(SubscriptionSignal::SumaChange {
                epoch,
                change: Held::new(alloc, change)?,
            }))
        }
        signals::SUMA_CLOSED => {
            let epoch = input.u64()?;
            Ok(Body::Subscription(SubscriptionSignal::SumaClosed { epoch }))
        }
        signals::SUB_DATA => {
            let epoch = input.u64()?;
            let fragment = input.u8()?;
            let at = input.u64()?;
            let changes = read_list::<Change>(alloc, input)?;
            let last = input.bool()?;
            Ok(Body::Subscription(SubscriptionSignal::SubData {
                epoch,
                fragment,
                at,
                changes,
                last,
            }))
        }
        signals::SUB_ACK => {
            let epoch = input.u64()?;
            Ok(Body::Subscription(SubscriptionSignal::SubAck { epoch }))
        }
        signals::SUMA_WAIT => {
            let epoch = input.u64()?;
            Ok(Body::Subscription(SubscriptionSignal::SumaWait { epoch }))
        }
        _ => {
            let epoch = input.u64()?;
            Ok(Body::Subscription(SubscriptionSignal::SumaReady { epoch }))
        }
    }
}
