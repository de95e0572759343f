//! Work that a block goes on with.
ghost use Rattle.trace_read.specs.Reading.{GivesOrWants};
ghost use Rattle.trace_bytes.specs.Works.{work_at, work_of, work_of_1, work_of_2};

use crate::input::Input;
use crate::read::requests::read_request;
use crate::stop::Stop;
use sig_core::Work;
use std::alloc::Global;
use trace_bytes::kinds::works;

/// Work that a block goes on with.
///
/// # Errors
/// Where a byte doesn't fit, and want of memory.
#[tactic(auto, unfolding(trace_bytes::specs::Works::work_at), using(crate::proofs::Stops::stops))]
pub fn read_work(alloc: Global, input: &mut Input<'_>) -> Result<Work, Stop>
    ensures { GivesOrWants result input.new (work_at input.old) }
{
    let number = input.byte(0, 10)?;
    work_of(alloc, input, number)
}

fn work_of(alloc: Global, input: &mut Input<'_>, number: u8) -> Result<Work, Stop>
    ensures { GivesOrWants result input.new (work_of number input.old) }
{
    if number < 6 {
        work_of_1(alloc, input, number)
    } else {
        work_of_2(input, number)
    }
}

#[tactic(auto, unfolding(trace_bytes::specs::Works::work_of_1), using(crate::proofs::Stops::stops))]
fn work_of_1(alloc: Global, input: &mut Input<'_>, number: u8) -> Result<Work, Stop>
    ensures { GivesOrWants result input.new (work_of_1 number input.old) }
{
    match number {
        works::REQUEST => {
            let request = read_request(alloc, input)?;
            Ok(Work::Request(request))
        }
        works::TRANSACTION => {
            let tx = input.tx()?;
            Ok(Work::Transaction(tx))
        }
        works::INSTALLATION => Ok(Work::Installation),
        works::HELD => Ok(Work::Held),
        works::GRANTED => Ok(Work::Granted),
        _ => Ok(Work::Expired),
    }
}

#[tactic(auto, unfolding(trace_bytes::specs::Works::work_of_2), using(crate::proofs::Stops::stops))]
fn work_of_2(input: &mut Input<'_>, number: u8) -> Result<Work, Stop>
    ensures { GivesOrWants result input.new (work_of_2 number input.old) }
{
    match number {
        works::REPORT => Ok(Work::Report),
        works::MEMBERS => Ok(Work::Members),
        works::FLUSH => Ok(Work::Flush),
        works::WALK => Ok(Work::Walk),
        _ => {
            let u64 = input.u64()?;
            Ok(Work::Changes(u64))
        }
    }
}
