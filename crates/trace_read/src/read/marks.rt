//! Marks.
ghost use Rattle.trace_read.specs.Reading.{GivesOrWants};
ghost use Rattle.trace_bytes.specs.Marks.{mark_at, mark_of, mark_of_1, mark_of_2, mark_of_3};

use crate::input::Input;
use crate::stop::Stop;
use sig_core::{Held, Mark};
use std::alloc::Global;
use trace_bytes::kinds::marks;

/// A mark.
///
/// # Errors
/// Where a byte doesn't fit, and want of memory.
#[tactic(auto, unfolding(trace_bytes::specs::Marks::mark_at), using(crate::proofs::Stops::stops))]
pub fn read_mark(alloc: Global, input: &mut Input<'_>) -> Result<Mark, Stop>
    ensures { GivesOrWants result input.new (mark_at input.old) }
{
    let number = input.byte(0, 12)?;
    mark_of(alloc, input, number)
}

fn mark_of(alloc: Global, input: &mut Input<'_>, number: u8) -> Result<Mark, Stop>
    ensures { GivesOrWants result input.new (mark_of number input.old) }
{
    if number < 6 {
        mark_of_1(input, number)
    } else if number < 12 {
        mark_of_2(alloc, input, number)
    } else {
        mark_of_3(input, number)
    }
}

#[tactic(auto, unfolding(trace_bytes::specs::Marks::mark_of_1), using(crate::proofs::Stops::stops))]
fn mark_of_1(input: &mut Input<'_>, number: u8) -> Result<Mark, Stop>
    ensures { GivesOrWants result input.new (mark_of_1 number input.old) }
{
    match number {
        marks::PREPARED => {
            let tx = input.tx()?;
            let key = input.key()?;
            Ok(Mark::Prepared { tx, key })
        }
        marks::DECIDED => {
            let tx = input.tx()?;
            let epoch = input.u64()?;
            Ok(Mark::Decided { tx, epoch })
        }
        marks::APPLIED => {
            let tx = input.tx()?;
            let key = input.key()?;
            Ok(Mark::Applied { tx, key })
        }
        marks::DONE => {
            let tx = input.tx()?;
            let key = input.key()?;
            Ok(Mark::Done { tx, key })
        }
        marks::EXPIRED => {
            let tx = input.tx()?;
            let key = input.key()?;
            Ok(Mark::Expired { tx, key })
        }
        _ => {
            let number = input.u64()?;
            Ok(Mark::Promised { number })
        }
    }
}

#[tactic(auto, unfolding(trace_bytes::specs::Marks::mark_of_2), using(crate::proofs::Stops::stops))]
fn mark_of_2(alloc: Global, input: &mut Input<'_>, number: u8) -> Result<Mark, Stop>
    ensures { GivesOrWants result input.new (mark_of_2 number input.old) }
{
    match number {
        marks::INSTALLED => {
            let view = input.view()?;
            Ok(Mark::Installed {
                view: Held::new(alloc, view)?,
            })
        }
        marks::REPORTED => {
            let tx = input.tx()?;
            let outcome = input.outcome()?;
            Ok(Mark::Reported { tx, outcome })
        }
        marks::DURABLE => {
            let epoch = input.u64()?;
            Ok(Mark::Durable { epoch })
        }
        marks::CUT_OFF => {
            let host = input.host()?;
            Ok(Mark::CutOff { host })
        }
        marks::DOWN => {
            let group = input.u8()?;
            Ok(Mark::Down { group })
        }
        _ => {
            let cause = input.stop()?;
            Ok(Mark::Stopped { cause })
        }
    }
}

#[tactic(auto, unfolding(trace_bytes::specs::Marks::mark_of_3), using(crate::proofs::Stops::stops))]
fn mark_of_3(input: &mut Input<'_>, number: u8) -> Result<Mark, Stop>
    ensures { GivesOrWants result input.new (mark_of_3 number input.old) }
{
    match number {
        _ => {
            let epoch = input.u64()?;
            Ok(Mark::Closed { epoch })
        }
    }
}
