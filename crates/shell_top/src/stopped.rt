//! Hosts that stopped for want of memory.
ghost use Rattle.std.specs.Prelude.{◌≡◌};
ghost use Rattle.std.specs.List.{list_any};
ghost use Rattle.shell_top.specs.Stopped.{ends_by_want, has_wanted, is_want};

use sig_core::{HostLog, Life, Mark, StopCause};

/// Whether a host of these lives stopped for want of memory.
pub fn have_wanted(lives: &[Life]) -> bool
    ensures { result ≡ list_any has_wanted lives.now }
{
    lives.iter().any(has_wanted)
}

// Whether one of this life did.
fn has_wanted(life: &Life) -> bool
    ensures { result ≡ has_wanted life.now }
{
    life.logs.as_slice().iter().any(ends_by_want)
}

// Whether the last step of a log stopped its host for want of memory.
fn ends_by_want(log: &HostLog) -> bool
    ensures { result ≡ ends_by_want log.now }
{
    match log.steps.as_slice().last() {
        None => false,
        Some(step) => have_want(step.marks.as_slice()),
    }
}

// Whether one of these marks tells of that.
fn have_want(marks: &[Mark]) -> bool
    ensures { result ≡ list_any is_want marks.now }
{
    marks.iter().any(is_want)
}

fn is_want(mark: &Mark) -> bool
    ensures { result ≡ is_want mark.now }
{
    matches!(
        mark,
        Mark::Stopped {
            cause: StopCause::Memory
        }
    )
}
