//! What the program does where its words ask for a check.
ghost use Rattle.std.specs.Prelude.{◌≡◌, IfOk};
ghost use Rattle.host_io.specs.Fault.{Rose};
ghost use Rattle.shell_top.specs.Checked.{HasFound, IsChecked, telling_of};
ghost use Rattle.shell_top.specs.declared.checked.Found.TheVariants as found;

use crate::ended::Ending;
use crate::gathered::{Ungathered, gather};
use crate::telling::{Telling, of_fault};
use crate::trace_text::{of_history, of_trace_fault, too_long};
use host_io::Source;
use sig_core::{Entry, NoMemory, Seq};
use std::alloc::Global;
use trace_check::{Checked, TraceFault, check};

/// What is found of the bytes of a source.
#[derive(Drop)]
pub enum Found {
    /// They are the trace of a right life, with this history.
    Right(Seq<Entry>),
    /// They aren't.
    Wrong(TraceFault),
    /// There are more than a trace may have.
    TooLong,
    /// The source failed.
    ReadFault,
    NoMemory,
}

/// Reads a trace from the source, and checks it.
pub fn find<S: Source>(alloc: Global, source: &mut S) -> Found
    ensures found { HasFound (S.left source.old) (S.left source.new) (Rose (S.faults source.old) (S.faults source.new)) result }
    ensures cause { result ≡ found.ReadFault → Rose (S.faults source.old) (S.faults source.new) }
{
    match gather(alloc, source) {
        Ok(bytes) => find_in(alloc, &bytes),
        Err(Ungathered::TooLong) => Found::TooLong,
        Err(Ungathered::Failed) => Found::ReadFault,
        Err(Ungathered::NoMemory) => Found::NoMemory,
    }
}

/// Checks the trace that these bytes are to be.
fn find_in(alloc: Global, bytes: &[u8]) -> Found
    ensures { IsChecked result bytes.now }
{
    match check(alloc, bytes) {
        Ok(Checked { history, .. }) => Found::Right(history),
        Err(fault) => Found::Wrong(fault),
    }
}

/// What is told of it.
///
/// # Errors
/// `NoMemory`.
pub fn telling_of(alloc: Global, found: &Found) -> Result<Telling, NoMemory>
    ensures { IfOk result (λ telling. telling ≡ telling_of found.now) }
{
    match found {
        Found::Right(history) => of_history(alloc, history.as_slice()),
        Found::Wrong(fault) => of_trace_fault(alloc, fault),
        Found::TooLong => too_long(alloc),
        Found::ReadFault => of_fault(alloc, &Ending::ReadFault),
        Found::NoMemory => Err(NoMemory),
    }
}
