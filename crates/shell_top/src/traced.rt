//! What is told of a session whose words ask for its trace.
ghost use Rattle.std.specs.Prelude.{◌≡◌, [], IfOk, IfSome};
ghost use Rattle.shell_top.specs.Traced.{last_life, trace_of_any, traced, unless_too_long};

use crate::ended::Ending;
use crate::telling::Telling;
use crate::text::{fault_line, status_after};
use crate::trace_text::too_long;
use sig_core::{Life, NoMemory, Seq, Shape};
use std::alloc::Global;
use trace_write::{WriteFault, write_trace};

/// What is told of a session of a cluster of this shape that ended so, with these lives: the trace of the
/// last one, or the line of the fault.
///
/// # Errors
/// `NoMemory`.
pub fn traced(
    alloc: Global,
    shape: Shape,
    ending: &Ending,
    lives: &[Life],
) -> Result<Telling, NoMemory>
    requires { IfSome (last_life lives.now) (λ life. life.slots ≡ []) }
    ensures { IfOk result (λ telling. telling ≡ traced shape ending.now lives.now) }
{
    let status = status_after(ending, lives);
    if matches!(ending, Ending::Finished | Ending::NoMemory) {
        return trace_of_last(alloc, shape, lives, status);
    }
    let line = fault_line(alloc, ending)?;
    Ok(Telling {
        text: Seq::from_vec(line.into_bytes()),
        status,
    })
}

/// The trace of the last of these lives, and the status behind it.
///
/// # Errors
/// `NoMemory`.
fn trace_of_last(
    alloc: Global,
    shape: Shape,
    lives: &[Life],
    status: u8,
) -> Result<Telling, NoMemory>
    requires { IfSome (last_life lives.now) (λ life. life.slots ≡ []) }
    ensures { IfOk result (λ telling. telling ≡ unless_too_long (trace_of_any shape (last_life lives.now)) status) }
{
    let Some(life) = lives.last() else {
        return Ok(Telling {
            text: Seq::new(alloc),
            status,
        });
    };
    match write_trace(alloc, shape, life) {
        Ok(text) => Ok(Telling { text, status }),
        Err(WriteFault::TooLong) => too_long(alloc),
        Err(WriteFault::OwnRows) => unreachable!(),
        Err(WriteFault::NoMemory) => Err(NoMemory),
    }
}
