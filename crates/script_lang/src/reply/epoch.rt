//! Epochs, in words.
ghost use Rattle.std.specs.Prelude.{◌≡◌, ◌++◌, OnOk};
ghost use Rattle.script_lang.specs.EpochText.{epoch_words};

use crate::reply::words::add;
use sig_core::NoMemory;
use std::alloc::Global;

/// How many epochs a checkpoint number has at most.
const MICROS: u64 = 4_294_967_296;

/// Adds words and an epoch behind them to a line: its checkpoint number, and how many epochs of
/// that number came before it.
///
/// # Errors
/// `NoMemory`.
pub fn add_epoch(alloc: Global, words: &str, epoch: u64, line: &mut Vec<u8>) -> Result<(), NoMemory>
    ensures { OnOk result (line.new.items ≡ line.old.items ++ (words.now ++ epoch_words epoch)) }
{
    let (checkpoint, micro) = (epoch / MICROS, epoch % MICROS);
    add(line, words)?;
    add(line, &format!(in alloc; "{checkpoint}/{micro}")?)
}
