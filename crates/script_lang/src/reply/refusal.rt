//! Why a command did nothing, in words.
ghost use Rattle.std.specs.Prelude.{◌≡◌, ◌++◌, OnOk};
ghost use Rattle.script_lang.specs.RefusalText.{refusal_words};

use crate::reply::words::add;
use sig_core::{NoMemory, Refusal};
use std::alloc::Global;

/// Adds the words of a refusal to a line.
///
/// # Errors
/// `NoMemory`.
pub fn add_refusal(alloc: Global, refusal: &Refusal, line: &mut Vec<u8>) -> Result<(), NoMemory>
    ensures { OnOk result (line.new.items ≡ line.old.items ++ refusal_words refusal.now) }
{
    match refusal {
        Refusal::Down => add(line, "down"),
        Refusal::Running => add(line, "running"),
        Refusal::NotOpen => add(line, "not open"),
        Refusal::IsOpen => add(line, "is open"),
        Refusal::NoMember(node) => add(line, &format!(in alloc; "no member {node}")?),
        Refusal::NotRunning(node) => add(line, &format!(in alloc; "not running {node}")?),
        Refusal::RunningNode(node) => add(line, &format!(in alloc; "running {node}")?),
        Refusal::InView(node) => add(line, &format!(in alloc; "in view {node}")?),
        Refusal::Busy => add(line, "busy"),
        Refusal::TooManyOperations => add(line, "too many operations 64"),
        Refusal::TooManyOpen => add(line, "too many open 64"),
        Refusal::Batch(name) => add(line, &format!(in alloc; "batch refused {name}")?),
        Refusal::NoSubscriber(number) => {
            add(line, &format!(in alloc; "no subscriber {number}")?)
        }
        Refusal::IsSubscribed(number) => {
            add(line, &format!(in alloc; "is subscribed {number}")?)
        }
        Refusal::NotSubscribed(number) => {
            add(line, &format!(in alloc; "not subscribed {number}")?)
        }
    }
}
