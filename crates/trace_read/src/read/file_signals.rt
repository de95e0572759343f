//! Signals between a block and the disk of its node.
ghost use Rattle.trace_read.specs.Reading.{GivesOrWants};
ghost use Rattle.trace_bytes.specs.FileSignals.{file_of};

use crate::input::Input;
use crate::read::lists::read_list;
use crate::stop::Stop;
use sig_core::{Body, FileSignal};
use std::alloc::Global;
use trace_bytes::kinds::signals;

/// A signal of this kind, one from `FS_WRITE_REQ` to `FS_CONF`.
///
/// # Errors
/// Where a byte doesn't fit, and want of memory.
#[tactic(auto, unfolding(trace_bytes::specs::FileSignals::file_of), using(crate::proofs::Stops::stops))]
pub fn file_of(alloc: Global, input: &mut Input<'_>, number: u8) -> Result<Body, Stop>
    ensures { GivesOrWants result input.new (file_of number input.old) }
{
    match number {
        signals::FS_WRITE_REQ => {
            let by = input.block()?;
            let req = input.u64()?;
            let file = input.u8()?;
            let at = input.u64()?;
            let bytes = read_list::<u8>(alloc, input)?;
            Ok(Body::File(FileSignal::FsWriteReq {
                by,
                req,
                file,
                at,
                bytes,
            }))
        }
        signals::FS_SYNC_REQ => {
            let by = input.block()?;
            let req = input.u64()?;
            let file = input.u8()?;
            Ok(Body::File(FileSignal::FsSyncReq { by, req, file }))
        }
        _ => {
            let req = input.u64()?;
            Ok(Body::File(FileSignal::FsConf { req }))
        }
    }
}
