//! Signals of operations where values are unique.
ghost use Rattle.std.specs.Prelude.{◌≡◌, IfOk};
ghost use Rattle.sig_core.specs.declared.unique.UAnswer.TheVariants.{Plain};
ghost use Rattle.trace_read.specs.Reading.{GivesOrWants};
ghost use Rattle.trace_bytes.specs.Operations.{uanswer_at};
ghost use Rattle.trace_bytes.specs.UniqueSignals.{unique_of};

use crate::input::Input;
use crate::stop::Stop;
use sig_core::{Answer, Body, Held, HeldOp, NoMemory, UAnswer, UniqueSignal};
use std::alloc::Global;
use trace_bytes::kinds::signals;

/// A signal of this kind, one from `TC_UNIQUE_REQ` to `TC_UNIQUE_CONF`.
///
/// # Errors
/// Where a byte doesn't fit, and want of memory.
#[tactic(auto, unfolding(trace_bytes::specs::UniqueSignals::unique_of), using(crate::proofs::Stops::stops))]
pub fn unique_of(alloc: Global, input: &mut Input<'_>, number: u8) -> Result<Body, Stop>
    ensures { GivesOrWants result input.new (unique_of number input.old) }
{
    match number {
        signals::TC_UNIQUE_REQ => {
            let tx = input.tx()?;
            let op = input.op()?;
            Ok(Body::Unique(UniqueSignal::TcUniqueReq {
                tx,
                op: HeldOp::new(alloc, op)?,
            }))
        }
        _ => {
            let tx = input.tx()?;
            let answer = held_answer(alloc, input)?;
            Ok(Body::Unique(UniqueSignal::TcUniqueConf { tx, answer }))
        }
    }
}

// An answer where values are unique, as signals hold it.
#[tactic(auto, using(crate::proofs::Stops::stops))]
fn held_answer(alloc: Global, input: &mut Input<'_>) -> Result<Held<UAnswer>, Stop>
    ensures { GivesOrWants result input.new (uanswer_at input.old) }
{
    let answer = input.uanswer()?;
    match &answer {
        UAnswer::Plain(plain) => Ok(held_plain(alloc, plain)?),
        UAnswer::Held(key) => Ok(Held::new(alloc, UAnswer::Held(*key))?),
        UAnswer::TooLong(size) => Ok(Held::new(alloc, UAnswer::TooLong(*size))?),
        UAnswer::KeyOf(key) => Ok(Held::new(alloc, UAnswer::KeyOf(*key))?),
    }
}

fn held_plain(alloc: Global, plain: &Answer) -> Result<Held<UAnswer>, NoMemory>
    ensures { IfOk result (λ held. held ≡ Plain plain.now) }
{
    Held::new(alloc, UAnswer::Plain(*plain))
}
