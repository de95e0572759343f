//! How long the bytes of redo and of checkpoints take.
use crate::stopped::Stopped;
use crate::watch::{Watch, a_second};
use lcp_store::{put_head, put_row2, rows_in};
use redo_format::{decode, encode};
use redo_log::replay_bytes;
use row_map::RowMap;
use sig_core::{Key, Redo, TxId, Value};
use std::alloc::Global;

/// More bytes than any of these tries has.
const MANY: usize = 1 << 40;

/// A row of each key.
#[derive(Clone, Copy)]
struct Row {
    key: Key,
    value: Value,
}

fn row_of(number: u64) -> Result<Row, Stopped> {
    let mut word = [b'k'; 9];
    let mut left = number;
    for at in 0..8 {
        word[8 - at] = b'0' + (left % 10) as u8;
        left /= 10;
    }
    Ok(Row {
        key: Key::new(&word)?,
        value: Value::new(&[b'v'; 100])?,
    })
}

fn rows_of(alloc: Global, count: u64) -> Result<Vec<Row>, Stopped> {
    let mut rows = Vec::new(alloc);
    for number in 0..count {
        rows.push(row_of(number)?)?;
    }
    Ok(rows)
}

// A row is prepared and committed.
fn append(bytes: &mut Vec<u8>, row: &Row) -> Result<(), Stopped> {
    let tx = TxId {
        tc: 1,
        start: 0,
        seq: 1,
    };
    let prepare = Redo::Prepare {
        tx,
        fragment: 0,
        key: row.key,
        image: Some(row.value),
    };
    encode(&prepare, bytes)?;
    let commit = Redo::Commit {
        tx,
        epoch: 1,
        key: row.key,
    };
    encode(&commit, bytes)?;
    Ok(())
}

// How many records the bytes are.
fn count_records(bytes: &[u8]) -> u64 {
    let mut count = 0u64;
    let mut at = 0usize;
    for _ in 0..bytes.len() {
        if at >= bytes.len() {
            return count;
        }
        match decode(&bytes[at..]) {
            Ok((_, len)) => at = at.saturating_add(len),
            Err(_) => return count,
        }
        count = count.saturating_add(1);
    }
    count
}

// Prints how many bytes of so many were dealt with in a second.
fn tell(rt: &HostRuntime, what: &str, bytes: usize, watch: &Watch) -> Result<(), Stopped> {
    let speed = a_second(bytes as u64, watch.taken(rt)?);
    println!(rt; "{what} {bytes} {speed}")?;
    Ok(())
}

fn write_redo(rt: &HostRuntime, rows: &[Row], bytes: &mut Vec<u8>) -> Result<(), Stopped> {
    let watch = Watch::start(rt)?;
    for row in rows {
        append(bytes, row)?;
    }
    tell(rt, "encode", bytes.len(), &watch)
}

// How many records there are.
fn decode_redo(rt: &HostRuntime, bytes: &[u8]) -> Result<u64, Stopped> {
    let watch = Watch::start(rt)?;
    let records = count_records(bytes);
    tell(rt, "decode", bytes.len(), &watch)?;
    Ok(records)
}

fn replay_redo(rt: &HostRuntime, bytes: &[u8]) -> Result<bool, Stopped> {
    if bytes.len() > MANY {
        return Ok(false);
    }
    let mut table = RowMap::new(rt.alloc());
    let watch = Watch::start(rt)?;
    let replayed = replay_bytes(rt.alloc(), &mut table, 0, 0, bytes, 1).is_ok();
    tell(rt, "replay", bytes.len(), &watch)?;
    Ok(replayed)
}

// Redo, written, decoded and replayed; whether all of it was.
fn time_redo(rt: &HostRuntime, rows: &[Row]) -> Result<bool, Stopped> {
    let mut bytes = Vec::new(rt.alloc());
    write_redo(rt, rows, &mut bytes)?;
    let records = decode_redo(rt, &bytes)?;
    let replayed = replay_redo(rt, &bytes)?;
    Ok(replayed && records / 2 == rows.len() as u64)
}

fn write_checkpoint(rt: &HostRuntime, rows: &[Row], bytes: &mut Vec<u8>) -> Result<(), Stopped> {
    let watch = Watch::start(rt)?;
    put_head(bytes)?;
    for row in rows {
        put_row2(bytes, &row.key, 1, row.value.bytes())?;
    }
    tell(rt, "checkpoint", bytes.len(), &watch)
}

fn read_checkpoint(rt: &HostRuntime, bytes: &[u8]) -> Result<bool, Stopped> {
    let watch = Watch::start(rt)?;
    let read = rows_in(rt.alloc(), 2, 1, bytes).is_ok();
    tell(rt, "checkpoint_read", bytes.len(), &watch)?;
    Ok(read)
}

// A checkpoint, written and read; whether it could be.
fn time_checkpoint(rt: &HostRuntime, rows: &[Row]) -> Result<bool, Stopped> {
    let mut bytes = Vec::new(rt.alloc());
    write_checkpoint(rt, rows, &mut bytes)?;
    read_checkpoint(rt, &bytes)
}

/// Prints how many bytes there are of redo and of a checkpoint, and how many are dealt with in a second.
pub fn time_formats(rt: &HostRuntime, count: u64) -> Result<bool, Stopped> {
    let rows = rows_of(rt.alloc(), count)?;
    let redo = time_redo(rt, &rows)?;
    let checkpoint = time_checkpoint(rt, &rows)?;
    Ok(redo && checkpoint)
}
