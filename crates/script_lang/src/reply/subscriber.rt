//! What subscribers are handed, in words.
ghost use Rattle.std.specs.Prelude.{◌≡◌, ◌++◌, string_bytes, OnOk, IfOk};
ghost use Rattle.script_lang.specs.SubscriberText.{changes_words, failed_words, subscribed_words};

use crate::reply::epoch::add_epoch;
use crate::reply::words::add;
use sig_core::NoMemory;
use std::alloc::Global;

/// Adds that a subscription begins or ends, in these words, with the last epoch before to a line.
///
/// # Errors
/// `NoMemory`.
pub fn add_subscribed(
    alloc: Global,
    words: &str,
    subscriber: u16,
    epoch: u64,
    line: &mut Vec<u8>,
) -> Result<(), NoMemory>
    ensures { OnOk result (line.new.items ≡ line.old.items ++ subscribed_words words.now subscriber epoch) }
{
    add(line, words)?;
    add(line, &format!(in alloc; "{subscriber}")?)?;
    add_epoch(alloc, " after ", epoch, line)
}

/// Adds how many changes of an epoch a subscriber was handed to a line.
///
/// # Errors
/// `NoMemory`.
pub fn add_changes(
    alloc: Global,
    subscriber: u16,
    epoch: u64,
    changes: u64,
    line: &mut Vec<u8>,
) -> Result<(), NoMemory>
    ensures { OnOk result (line.new.items ≡ line.old.items ++ changes_words subscriber epoch changes) }
{
    add(line, &format!(in alloc; "sub {subscriber}")?)?;
    add_epoch(alloc, " ", epoch, line)?;
    add(line, &format!(in alloc; " changes {changes}")?)
}

/// The words of a subscriber that failed, whose count of faults is this.
///
/// # Errors
/// `NoMemory`.
pub fn failed_words(alloc: Global, subscriber: u16, count: u64) -> Result<String, NoMemory>
    ensures { IfOk result (λ words. string_bytes words ≡ failed_words subscriber count) }
{
    Ok(format!(in alloc; "sub {subscriber} failed {count}")?)
}
