//! The rows of a checkpoint.
ghost use Rattle.std.specs.Prelude.{◌≡◌, ◌≤◌, ◌<◌, length, IfSome, MatchResult};
ghost use Rattle.lcp_store.specs.Reading.{Reads, damage, version_in};

use crate::row::{Version, lent_row_in};
use row_map::RowMap;
use sig_core::{KEY_BYTES, ReadFault, VALUE_BYTES};
use std::alloc::Global;

/// The rows of a checkpoint of either version, which are all bytes of this file. Of the rows of one key
/// the last counts. `latest` is the latest epoch that a row may be of.
///
/// # Errors
/// `Damaged` exactly where the bytes are no checkpoint, or have a row epoch above the latest one. Where
/// they end within a row or within the head, the place is behind them. `NoMemory`.
#[tactic(auto, using(crate::proofs::RowsLemmas::reading))]
pub fn rows_in(alloc: Global, file: u8, latest: u64, bytes: &[u8]) -> Result<RowMap, ReadFault>
    ensures { Reads file latest bytes.now result }
{
    let (version, head) = match version_in(bytes) {
        Ok(found) => found,
        Err(left) => return Err(damage(file, bytes, left)),
    };
    let mut rest = &bytes[head..];
    let Ok(mut rows) = RowMap::with_room(alloc, count_rows(version, rest), rest.len()) else {
        return Err(ReadFault::NoMemory);
    };
    'rows: while !rest.is_empty() {
        match lent_row_in(version, latest, rest) {
            Ok((row, taken)) => match rows.insert(row.key, row.value) {
                Ok(()) => rest = &rest[taken..],
                Err(_) => return Err(ReadFault::NoMemory),
            },
            Err(left) => return Err(damage(file, bytes, left)),
        }
    }
    Ok(rows)
}

// How many rows stand in front of bytes, as their lengths tell: there is room for them before they are read.
fn count_rows(version: Version, bytes: &[u8]) -> usize {
    let mut rest = bytes;
    let mut count = 0usize;
    'rows: while let Some(behind) = behind_row(version, rest) {
        rest = behind;
        count = count.saturating_add(1);
    }
    count
}

// What stands behind the row in front, where its lengths are those of a row.
fn behind_row(version: Version, bytes: &[u8]) -> Option<&[u8]>
    ensures { IfSome result (λ rest. length rest.now < length bytes.now) }
{
    let rest = behind_word(bytes, 1, KEY_BYTES)?;
    match version {
        Version::First => behind_word(rest, 0, VALUE_BYTES),
        Version::Second => behind_word(rest.get(8..)?, 0, VALUE_BYTES),
    }
}

// What stands behind a word of `least` to `most` bytes and its length.
fn behind_word(bytes: &[u8], least: usize, most: usize) -> Option<&[u8]>
    ensures { IfSome result (λ rest. length rest.now < length bytes.now) }
{
    let (first, rest) = bytes.split_first()?;
    let len = *first as usize;
    if len < least || most < len {
        return None;
    }
    rest.get(len..)
}

// The version of a checkpoint, and how many bytes tell it.
#[tactic(auto, unfolding(crate::specs::Reading::version_in))]
fn version_in(bytes: &[u8]) -> Result<(Version, usize), usize>
    ensures told { result ≡ version_in bytes.now }
    ensures within { MatchResult result (λ found. found.1 ≤ length bytes.now) (λ left. left ≤ length bytes.now) }
{
    match bytes {
        [0, 2, ..] => Ok((Version::Second, 2)),
        [0, ..] => Err(bytes.len() - 1),
        _ => Ok((Version::First, 0)),
    }
}

// The byte that doesn't fit, where so many are left from it on.
fn damage(file: u8, bytes: &[u8], left: usize) -> ReadFault
    requires { left ≤ length bytes.now }
    ensures { result ≡ damage file bytes.now left }
{
    let at = bytes.len() - left;
    let byte = if at < bytes.len() { bytes[at] } else { 0 };
    ReadFault::Damaged {
        file,
        at: at as u64,
        byte,
    }
}
