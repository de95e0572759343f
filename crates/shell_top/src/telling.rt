//! What the program writes last, and its status behind that.
ghost use Rattle.std.specs.Prelude.{◌≡◌, IfOk};
ghost use Rattle.host_io.specs.Fault.{Rose};
ghost use Rattle.shell_top.specs.declared.telling.Telling.{Telling};
ghost use Rattle.shell_top.specs.Telling.{IsTold, of_fault};

use crate::ended::Ending;
use crate::text::{fault_line, status_of};
use crate::writer::write_all;
use host_io::Sink;
use sig_core::{NoMemory, Seq};
use std::alloc::Global;

/// What the program is to write, and the status with which it ends then.
#[derive(Drop)]
pub struct Telling {
    pub text: Seq<u8>,
    pub status: u8,
}

/// The line of a fault, if it has one, and its status.
///
/// # Errors
/// `NoMemory`.
pub fn of_fault(alloc: Global, ending: &Ending) -> Result<Telling, NoMemory>
    ensures { IfOk result (λ telling. telling ≡ of_fault ending.now) }
{
    let line = fault_line(alloc, ending)?;
    Ok(Telling {
        text: Seq::from_vec(line.into_bytes()),
        status: status_of(ending),
    })
}

/// Writes what is to be told, where there was the memory to make it, and gives the status with which the
/// program ends.
pub fn tell<K: Sink>(sink: &mut K, telling: Result<Telling, NoMemory>) -> u8
    ensures { (meant : Telling) → IfOk telling (λ t. t ≡ meant) → IsTold meant (Rose (K.faults sink.old) (K.faults sink.new)) (K.written sink.old) (K.written sink.new) result }
{
    let Ok(telling) = telling else {
        return status_of(&Ending::NoMemory);
    };
    match write_all(sink, telling.text.as_slice()) {
        Ok(()) => telling.status,
        Err(_) => status_of(&Ending::WriteFault),
    }
}
