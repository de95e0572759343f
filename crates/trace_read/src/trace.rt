//! Traces as a whole.
ghost use Rattle.std.specs.Prelude.{◌≡◌, ◌-◌, IfOk, length};
ghost use Rattle.trace_bytes.specs.Lives.{IsLife, IsShape, read_of, trace_of};
ghost use Rattle.trace_read.specs.Traces.{Answers};
ghost use Rattle.trace_read.specs.declared.fault.TraceFault.TheVariants.{NotTrace};

use crate::fault::TraceFault;
use crate::input::Input;
use crate::read::lives::read_shape_and_life;
use crate::stop::Stop;
use sig_core::{Life, Shape};
use std::alloc::Global;

/// The shape of a cluster and the life that this is the trace of.
///
/// # Errors
/// `NotTrace` exactly where it is no trace, and `NoMemory`.
pub fn read_trace(alloc: Global, bytes: &[u8]) -> Result<(Shape, Life), TraceFault>
    ensures exact { Answers result (read_of bytes.now) }
    ensures found { IfOk result (λ x. IsShape x.0 × IsLife x.1 × (bytes.now ≡ trace_of x.0 x.1)) }
{
    told(alloc, bytes)
}

// What reading gives of these bytes.
#[tactic(auto, unfolding(trace_bytes::specs::Lives::read_of), using(crate::proofs::Wholes::wholes))]
fn told(alloc: Global, bytes: &[u8]) -> Result<(Shape, Life), TraceFault>
    ensures { Answers result (read_of bytes.now) }
{
    let mut input = Input::new(bytes);
    match read_shape_and_life(alloc, &mut input) {
        Ok(found) => {
            let left = input.left();
            if left > 0 {
                return Err(not_trace(bytes, left));
            }
            Ok(found)
        }
        Err(Stop::Left(left)) => Err(not_trace(bytes, left)),
        Err(Stop::NoMemory) => Err(TraceFault::NoMemory),
    }
}

// The place behind which so many bytes are left.
fn not_trace(bytes: &[u8], left: usize) -> TraceFault
    ensures { result ≡ NotTrace (length bytes.now - left) }
{
    TraceFault::NotTrace {
        at: bytes.len().saturating_sub(left),
    }
}
