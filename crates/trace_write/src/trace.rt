//! Traces as a whole.
ghost use Rattle.std.specs.Prelude.{◌≡◌, ◌<◌, ◌≤◌, length, Err, IfOk, true};
ghost use Rattle.trace_bytes.specs.Lives.{step_bytes, trace_of};
ghost use Rattle.trace_write.specs.Own.{has_own};
ghost use Rattle.trace_write.specs.declared.fault.WriteFault.TheVariants.{OwnRows, TooLong};

use crate::fault::WriteFault;
use crate::output::Output;
use sig_core::{Life, LogStep, NoMemory, Seq, Shape, Slots};
use std::alloc::Global;

/// The most bytes of a trace, 1 GiB.
pub const TRACE_BYTES: usize = 1_073_741_824;

/// The trace of a life of a cluster of this shape.
///
/// # Errors
/// `TooLong` only where it has more than `TRACE_BYTES` bytes, `OwnRows` only where a host found rows of its
/// own, and `NoMemory`.
#[tactic(auto, unfolding(trace_bytes::specs::Lives::trace_of))]
pub fn write_trace(alloc: Global, shape: Shape, life: &Life) -> Result<Seq<u8>, WriteFault>
    ensures told { IfOk result (λ bytes. bytes ≡ trace_of shape life.now) }
    ensures short { IfOk result (λ bytes. length bytes ≤ TRACE_BYTES) }
    ensures own { result ≡ Err OwnRows → has_own life.now.slots ≡ true }
    ensures long { result ≡ Err TooLong → TRACE_BYTES < length (trace_of shape life.now) }
{
    if have_own_rows(life.slots.as_slice()) {
        return Err(WriteFault::OwnRows);
    }
    let mut out = Output::new(alloc);
    out.shape(&shape)?;
    out.life(life)?;
    if out.len() > TRACE_BYTES {
        return Err(WriteFault::TooLong);
    }
    Ok(out.into_seq())
}

// Whether a host found rows of its own.
fn have_own_rows(slots: &[Slots]) -> bool
    ensures { result ≡ has_own slots.now }
{
    slots.iter().any(|found| found.own.is_some())
}

/// The bytes of a step of a log, as they stand in a trace.
///
/// # Errors
/// `NoMemory`.
pub fn write_step(alloc: Global, step: &LogStep) -> Result<Seq<u8>, NoMemory>
    ensures { IfOk result (λ bytes. bytes ≡ step_bytes step.now) }
{
    let mut out = Output::new(alloc);
    out.step(step)?;
    Ok(out.into_seq())
}
