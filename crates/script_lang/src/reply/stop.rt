//! Why a node stopped, in words.
ghost use Rattle.std.specs.Prelude.{◌≡◌, ◌++◌, OnOk};
ghost use Rattle.script_lang.specs.StopText.{cause_words, stop_words};

use crate::reply::words::add;
use sig_core::{NoMemory, StopCause};
use std::alloc::Global;

/// Adds the words of the stop of a node to a line.
///
/// # Errors
/// `NoMemory`.
pub fn add_stop(
    alloc: Global,
    node: u8,
    cause: &StopCause,
    line: &mut Vec<u8>,
) -> Result<(), NoMemory>
    ensures { OnOk result (line.new.items ≡ line.old.items ++ stop_words node cause.now) }
{
    add(line, &format!(in alloc; "node {node} stopped ")?)?;
    add_cause(alloc, cause, line)
}

fn add_cause(alloc: Global, cause: &StopCause, line: &mut Vec<u8>) -> Result<(), NoMemory>
    ensures { OnOk result (line.new.items ≡ line.old.items ++ cause_words cause.now) }
{
    match cause {
        StopCause::Killed => add(line, "killed"),
        StopCause::Excluded { view } => add(line, &format!(in alloc; "excluded {view}")?),
        StopCause::NoGroup { group } => add(line, &format!(in alloc; "nogroup {group}")?),
        StopCause::Disk { count } => add(line, &format!(in alloc; "disk {count}")?),
        StopCause::Memory => add(line, "memory"),
        StopCause::Clock => add(line, "clock"),
        StopCause::Sibling { host: _ } => add(line, "sibling"),
    }
}
