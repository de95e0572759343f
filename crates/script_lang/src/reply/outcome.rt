//! How a transaction ended, in words.
ghost use Rattle.std.specs.Prelude.{◌≡◌, ◌++◌, string_bytes, OnOk, IfOk};
ghost use Rattle.sig_core.specs.declared.outcome.AbortCause.TheVariants.{LogFull};
ghost use Rattle.script_lang.specs.OutcomeText.{outcome_words, abort_words};

use crate::reply::epoch::add_epoch;
use crate::reply::words::add;
use sig_core::{AbortCause, NoMemory, Outcome};
use std::alloc::Global;

/// Adds the words of an outcome to a line.
///
/// # Errors
/// `NoMemory`.
pub fn add_outcome(alloc: Global, outcome: &Outcome, line: &mut Vec<u8>) -> Result<(), NoMemory>
    ensures { OnOk result (line.new.items ≡ line.old.items ++ outcome_words outcome.now) }
{
    match outcome {
        Outcome::Committed(epoch) => add_epoch(alloc, "committed ", *epoch, line),
        Outcome::Aborted(cause) => add_abort(alloc, cause, line),
        Outcome::Unknown => add(line, "unknown"),
    }
}

fn add_abort(alloc: Global, cause: &AbortCause, line: &mut Vec<u8>) -> Result<(), NoMemory>
    ensures { OnOk result (line.new.items ≡ line.old.items ++ abort_words cause.now) }
{
    match cause {
        AbortCause::Request => add(line, "aborted by request"),
        AbortCause::Timeout => add(line, "aborted 266 time-out"),
        AbortCause::NodeFail { view } => add(line, &format!(in alloc; "aborted nodefail {view}")?),
        AbortCause::LogFull {
            used,
            reserved,
            need,
        } => add(line, &log_full_words(alloc, *used, *reserved, *need)?),
        AbortCause::TableFull { rows } => {
            add(line, &format!(in alloc; "aborted table full {rows}")?)
        }
        AbortCause::Down => add(line, "aborted down"),
    }
}

// The words of an abort for a full log.
fn log_full_words(alloc: Global, used: u64, reserved: u64, need: u64) -> Result<String, NoMemory>
    ensures { IfOk result (λ words. string_bytes words ≡ abort_words (LogFull used reserved need)) }
{
    Ok(format!(in alloc; "aborted log full {used} {reserved} {need}")?)
}
