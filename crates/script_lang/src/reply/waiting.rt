//! What an unanswered command waits for, in words.
ghost use Rattle.std.specs.Prelude.{◌≡◌, ◌++◌, string_bytes, OnOk, IfOk};
ghost use Rattle.sig_core.specs.declared.reply.Waiting.TheVariants.{Cut};
ghost use Rattle.script_lang.specs.WaitingText.{waiting_words};

use crate::reply::words::add;
use sig_core::{NoMemory, Waiting};
use std::alloc::Global;

/// Adds the words of a wait to a line. A holder without a name is printed as name 0.
///
/// # Errors
/// `NoMemory`.
pub fn add_waiting(alloc: Global, on: &Waiting, line: &mut Vec<u8>) -> Result<(), NoMemory>
    ensures { OnOk result (line.new.items ≡ line.old.items ++ waiting_words on.now) }
{
    match on {
        Waiting::HeldBy(None) => add(line, "pending held by @0"),
        Waiting::HeldBy(Some(name)) => add(line, &format!(in alloc; "pending held by @{name}")?),
        Waiting::Cut(one, other) => add(line, &cut_words(alloc, *one, *other)?),
        Waiting::Node(node) => add(line, &format!(in alloc; "pending node {node}")?),
    }
}

// The words of a wait for a link that is cut.
fn cut_words(alloc: Global, one: u8, other: u8) -> Result<String, NoMemory>
    ensures { IfOk result (λ words. string_bytes words ≡ waiting_words (Cut one other)) }
{
    Ok(format!(in alloc; "pending cut {one} {other}")?)
}
