//! The records of a log, replayed onto rows.
ghost use Rattle.std.specs.Prelude.{◌≡◌, ◌≤◌, ◌<◌, ◌+◌, ◌-◌, ◌^◌, ◌++◌, List, Some, Err, MatchResult, OnOk, cond};
ghost use Rattle.std.specs.Prelude.{length};
ghost use Rattle.host_io.specs.Call.{Call};
ghost use Rattle.redo_format.specs.declared.fault.FormatFault.TheVariants as format;
ghost use Rattle.sig_core.specs.Redo.{bytes_of};
ghost use Rattle.redo_format.specs.Records.{IsRecord};
ghost use Rattle.redo_format.specs.Decoding.{decoded};
ghost use Rattle.redo_format.specs.Lent.{redo_of};
ghost use Rattle.redo_log.specs.declared.image_id.ImageId.{ImageId};
ghost use Rattle.redo_log.specs.Replaying.{Replays, applied, damage, id_of, image_at, prepared_by, same_id, with_image};
ghost use Rattle.redo_log.specs.Stored.{HasCause, ReplaysStored, files_of};

use crate::image_id::ImageId;
use crate::prepared::Prepared;
use crate::stored::read_log;
use host_io::Disk;
use redo_format::{FormatFault, LentImage, LentRedo, decode_lent};
use row_map::RowMap;
use sig_core::{Key, NoMemory, ReadFault, file_of, place_of};
use std::alloc::Global;

/// Replays a log onto rows, from one position up to another, as a disk has it in the files of this
/// parity. A commit whose epoch isn't above `epoch` makes the row what its transaction's latest
/// prepare of the key says; a commit or an abort without one changes nothing.
///
/// # Errors
/// `DiskFault`, and then the rows are as they were. `Damaged` where what the disk has aren't records,
/// at the first byte that fits none, or where a file ends too early; then the records before have
/// been replayed. `NoMemory`.
pub fn replay<D: Disk>(
    alloc: Global,
    rows: &mut RowMap,
    disk: &mut D,
    parity: u8,
    from: u64,
    to: u64,
    epoch: u64,
) -> Result<(), ReadFault>
    requires parity { parity ≤ 1 }
    requires order { from ≤ to }
    ensures replayed { (calls : List Call) → D.told disk.old ≡ Some calls → ReplaysStored epoch rows.old (files_of calls) parity from (to - from) rows.new result }
    ensures unrecorded { D.told disk.new ≡ D.told disk.old }
    ensures cause { HasCause (D.faults disk.old) (D.faults disk.new) rows.old rows.new result }
    ensures steady { D.faults disk.old ≤ D.faults disk.new }
{
    let bytes = read_log(alloc, disk, parity, from, to)?;
    replay_bytes(alloc, rows, parity, from, &bytes, epoch)?;
    let there = bytes.len();
    if (there as u64) < to - from {
        return Err(damage(parity, from, &bytes, there));
    }
    Ok(())
}

/// Replays bytes of a log onto rows. They stand in the files of this parity, from this position on.
/// A commit whose epoch isn't above `epoch` makes the row what its transaction's latest prepare of
/// the key says; a commit or an abort without one changes nothing.
///
/// # Errors
/// `Damaged` exactly where the bytes aren't records, at the first that fits none; then the records
/// before it have been replayed. `NoMemory`.
#[tactic(auto, using(crate::proofs::ReplayLemmas::replays))]
pub fn replay_bytes(
    alloc: Global,
    rows: &mut RowMap,
    parity: u8,
    from: u64,
    bytes: &[u8],
    epoch: u64,
) -> Result<(), ReadFault>
    requires parity { parity ≤ 1 }
    requires positions { from + length bytes.now < 2 ^ 64 }
    ensures { Replays epoch rows.old parity from bytes.now rows.new result }
{
    let mut prepared = Prepared::new(alloc);
    let mut rest = bytes;
    'records: while !rest.is_empty() {
        match first_record(rest) {
            Ok((redo, behind)) => match apply(rows, &mut prepared, &redo, epoch) {
                Ok(()) => rest = behind,
                Err(_) => return Err(ReadFault::NoMemory),
            },
            Err(at) => {
                let place = bytes.len() - rest.len() + at;
                return Err(damage(parity, from, bytes, place));
            }
        }
    }
    Ok(())
}

// The record at the front of the bytes, and those behind it; or the place of the first byte that
// fits no record, or the length where the bytes end before.
#[inline(always)]
#[tactic(auto, using(crate::proofs::ReplayLemmas::fronts))]
fn first_record(bytes: &[u8]) -> Result<(LentRedo<'_>, &[u8]), usize>
    ensures is { MatchResult result (λ x. IsRecord (redo_of x.0)) (λ at. decoded bytes.now ≡ Err (format.NotRecord at)) }
    ensures split { MatchResult result (λ x. bytes.now ≡ bytes_of (redo_of x.0) ++ x.1.now) (λ at. at ≤ length bytes.now) }
    ensures fewer { MatchResult result (λ x. length x.1.now < length bytes.now) (λ at. at ≤ length bytes.now) }
{
    match decode_lent(bytes) {
        Ok((redo, taken)) => Ok((redo, &bytes[taken..])),
        Err(FormatFault::NotRecord { at }) => Err(at),
    }
}

// The byte so far behind the position, at its place.
fn damage(parity: u8, from: u64, bytes: &[u8], behind: usize) -> ReadFault
    requires parity { parity ≤ 1 }
    requires within { behind ≤ length bytes.now }
    requires positions { from + length bytes.now < 2 ^ 64 }
    ensures { result ≡ damage parity from bytes.now behind }
{
    let byte = if behind < bytes.len() {
        bytes[behind]
    } else {
        0
    };
    let position = from + behind as u64;
    ReadFault::Damaged {
        file: file_of(parity, position),
        at: place_of(position),
        byte,
    }
}

// Replays one more record.
#[inline(always)]
fn apply<'a>(
    rows: &mut RowMap,
    prepared: &mut Prepared<'a>,
    redo: &LentRedo<'a>,
    epoch: u64,
) -> Result<(), NoMemory>
    ensures rows { OnOk result (rows.new ≡ applied epoch (redo_of redo.now) (image_at prepared.old (id_of (redo_of redo.now))) rows.old) }
    ensures prepared { OnOk result ((q : ImageId) → image_at prepared.new q ≡ cond (same_id (id_of (redo_of redo.now)) q) (prepared_by (redo_of redo.now)) (image_at prepared.old q)) }
{
    match redo {
        LentRedo::Prepare {
            tx,
            fragment: _,
            key,
            image: Some(image),
        } => prepared.put(ImageId { tx: *tx, key: *key }, Some(image.again())),
        LentRedo::Prepare {
            tx,
            fragment: _,
            key,
            image: None,
        } => prepared.put(ImageId { tx: *tx, key: *key }, None),
        LentRedo::Commit { tx, epoch: at, key } => {
            match prepared.take(ImageId { tx: *tx, key: *key }) {
                Some(image) => commit(rows, key, &image, *at <= epoch),
                None => Ok(()),
            }
        }
        LentRedo::Abort { tx, key } => {
            let _ = prepared.take(ImageId { tx: *tx, key: *key });
            Ok(())
        }
    }
}

// Makes an image the row, if that is wanted.
#[inline(always)]
fn commit(
    rows: &mut RowMap,
    key: &Key,
    image: &Option<LentImage<'_>>,
    wanted: bool,
) -> Result<(), NoMemory>
    ensures { OnOk result (rows.new ≡ cond wanted (with_image rows.old key.now image.now) rows.old) }
{
    if !wanted {
        return Ok(());
    }
    match image {
        Some(image) => rows.change(*key, image.bytes()),
        None => {
            rows.remove(key);
            Ok(())
        }
    }
}
