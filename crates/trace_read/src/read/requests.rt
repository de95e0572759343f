//! Requests of the shell.
ghost use Rattle.trace_read.specs.Reading.{GivesOrWants};
ghost use Rattle.trace_bytes.specs.Requests.{request_at, request_of, request_of_1, request_of_2, request_of_3};
ghost use Rattle.trace_bytes.specs.Requests.{request_of_4};

use crate::input::Input;
use crate::read::lists::read_list;
use crate::stop::Stop;
use sig_core::{ApiReq, BatchLine, HeldOp};
use std::alloc::Global;
use trace_bytes::kinds::requests;

/// A request of the shell.
///
/// # Errors
/// Where a byte doesn't fit, and want of memory.
#[tactic(auto, unfolding(trace_bytes::specs::Requests::request_at), using(crate::proofs::Stops::stops))]
pub fn read_request(alloc: Global, input: &mut Input<'_>) -> Result<ApiReq, Stop>
    ensures { GivesOrWants result input.new (request_at input.old) }
{
    let number = input.byte(0, 23)?;
    request_of(alloc, input, number)
}

fn request_of(alloc: Global, input: &mut Input<'_>, number: u8) -> Result<ApiReq, Stop>
    ensures { GivesOrWants result input.new (request_of number input.old) }
{
    if number < 6 {
        request_of_1(alloc, input, number)
    } else if number < 12 {
        request_of_2(input, number)
    } else if number < 18 {
        request_of_3(input, number)
    } else {
        request_of_4(alloc, input, number)
    }
}

#[tactic(auto, unfolding(trace_bytes::specs::Requests::request_of_1), using(crate::proofs::Stops::stops))]
fn request_of_1(alloc: Global, input: &mut Input<'_>, number: u8) -> Result<ApiReq, Stop>
    ensures { GivesOrWants result input.new (request_of_1 number input.old) }
{
    match number {
        requests::BEGIN => {
            let name = input.u16()?;
            let node = input.opt_u8()?;
            Ok(ApiReq::Begin { name, node })
        }
        requests::OPERATE => {
            let name = input.name()?;
            let op = input.op()?;
            Ok(ApiReq::Operate {
                name,
                op: HeldOp::new(alloc, op)?,
            })
        }
        requests::COMMIT => {
            let name = input.u16()?;
            Ok(ApiReq::Commit { name })
        }
        requests::ABORT => {
            let name = input.u16()?;
            Ok(ApiReq::Abort { name })
        }
        requests::BATCH => {
            let lines = read_list::<BatchLine>(alloc, input)?;
            Ok(ApiReq::Batch { lines })
        }
        _ => {
            let node = input.u8()?;
            Ok(ApiReq::Kill { node })
        }
    }
}

#[tactic(auto, unfolding(trace_bytes::specs::Requests::request_of_2), using(crate::proofs::Stops::stops))]
fn request_of_2(input: &mut Input<'_>, number: u8) -> Result<ApiReq, Stop>
    ensures { GivesOrWants result input.new (request_of_2 number input.old) }
{
    match number {
        requests::CUT => {
            let one = input.u8()?;
            let other = input.u8()?;
            Ok(ApiReq::Cut { one, other })
        }
        requests::TICK => {
            let round = input.u8()?;
            let rounds = input.u8()?;
            Ok(ApiReq::Tick { round, of: rounds })
        }
        requests::GCP => Ok(ApiReq::Gcp),
        requests::LCP => Ok(ApiReq::Lcp),
        requests::START => {
            let node = input.u8()?;
            let own = input.opt_u64()?;
            Ok(ApiReq::Start { node, own })
        }
        _ => Ok(ApiReq::Crash),
    }
}

#[tactic(auto, unfolding(trace_bytes::specs::Requests::request_of_3), using(crate::proofs::Stops::stops))]
fn request_of_3(input: &mut Input<'_>, number: u8) -> Result<ApiReq, Stop>
    ensures { GivesOrWants result input.new (request_of_3 number input.old) }
{
    match number {
        requests::RESTART => Ok(ApiReq::Restart),
        requests::ROWS => {
            let node = input.u8()?;
            Ok(ApiReq::Rows { node })
        }
        requests::DIGEST => {
            let node = input.u8()?;
            Ok(ApiReq::Digest { node })
        }
        requests::VIEW => Ok(ApiReq::View),
        requests::WAITS => Ok(ApiReq::Waits),
        _ => Ok(ApiReq::Pending),
    }
}

#[tactic(auto, unfolding(trace_bytes::specs::Requests::request_of_4), using(crate::proofs::Stops::stops))]
fn request_of_4(alloc: Global, input: &mut Input<'_>, number: u8) -> Result<ApiReq, Stop>
    ensures { GivesOrWants result input.new (request_of_4 number input.old) }
{
    match number {
        requests::MICRO => Ok(ApiReq::Micro),
        requests::SUBSCRIBE => {
            let subscriber = input.u16()?;
            Ok(ApiReq::Subscribe { subscriber })
        }
        requests::UNSUBSCRIBE => {
            let subscriber = input.u16()?;
            Ok(ApiReq::Unsubscribe { subscriber })
        }
        requests::BACKUP => {
            let backup = input.u32()?;
            Ok(ApiReq::Backup { backup })
        }
        requests::DUMP => {
            let backup = input.u32()?;
            Ok(ApiReq::Dump { backup })
        }
        _ => {
            let name = input.name()?;
            let op = input.op()?;
            Ok(ApiReq::Unique {
                name,
                op: HeldOp::new(alloc, op)?,
            })
        }
    }
}
