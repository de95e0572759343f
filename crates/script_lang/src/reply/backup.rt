//! What becomes of backups, in words.
ghost use Rattle.std.specs.Prelude.{◌≡◌, ◌++◌, codes, string_bytes, OnOk, IfOk};
ghost use Rattle.script_lang.specs.BackupText.{backup_words, dump_words, ended_words, too_large_words};

use crate::reply::epoch::add_epoch;
use crate::reply::row::add_row;
use crate::reply::words::add;
use sig_core::NoMemory;
use std::alloc::Global;

/// Adds the number of a backup that was taken, and its last epoch, to a line.
///
/// # Errors
/// `NoMemory`.
pub fn add_backup(
    alloc: Global,
    backup: u32,
    epoch: u64,
    line: &mut Vec<u8>,
) -> Result<(), NoMemory>
    ensures { OnOk result (line.new.items ≡ line.old.items ++ backup_words backup epoch) }
{
    add(line, &format!(in alloc; "backup {backup}")?)?;
    add_epoch(alloc, " stop ", epoch, line)
}

/// The words of a backup that a view of this number ended.
///
/// # Errors
/// `NoMemory`.
pub fn ended_words(alloc: Global, backup: u32, view: u64) -> Result<String, NoMemory>
    ensures { IfOk result (λ words. string_bytes words ≡ ended_words backup view) }
{
    Ok(format!(in alloc; "backup {backup} ended {view}")?)
}

/// The words of a backup of which a node would have so many bytes.
///
/// # Errors
/// `NoMemory`.
pub fn too_large_words(alloc: Global, backup: u32, size: u64) -> Result<String, NoMemory>
    ensures { IfOk result (λ words. string_bytes words ≡ too_large_words backup size) }
{
    Ok(format!(in alloc; "backup {backup} too large {size}")?)
}

/// Adds a row of a backup, as the command that puts it, to a line.
///
/// # Errors
/// `NoMemory`.
pub fn add_put(key: &[u8], value: &[u8], line: &mut Vec<u8>) -> Result<(), NoMemory>
    ensures { OnOk result (line.new.items ≡ line.old.items ++ (codes "put " ++ (key.now ++ codes " " ++ value.now))) }
{
    add(line, "put ")?;
    add_row(key, value, line)
}

/// Adds how many rows a backup has, and its last epoch, to a line.
///
/// # Errors
/// `NoMemory`.
pub fn add_dump(
    alloc: Global,
    backup: u32,
    rows: u64,
    epoch: u64,
    line: &mut Vec<u8>,
) -> Result<(), NoMemory>
    ensures { OnOk result (line.new.items ≡ line.old.items ++ dump_words backup rows epoch) }
{
    add(line, &format!(in alloc; "backup {backup}")?)?;
    add(line, &format!(in alloc; " rows {rows}")?)?;
    add_epoch(alloc, " stop ", epoch, line)
}
