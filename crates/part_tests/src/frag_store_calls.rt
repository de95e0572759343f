//! Calls by hand, and what the store tells after each.
use crate::wrong::Wrong;
use frag_store::Store;
use sig_core::{Answer, HashedKey, Key, Op, Rows, TxId, Value};
use std::alloc::Global;

const TX: TxId = TxId {
    tc: 1,
    start: 0,
    seq: 1,
};

// A call on a key, by one transaction.
#[derive(Clone, Copy)]
enum Call {
    Room,
    Put(u64),
    Prepare,
    Delete,
    Insert,
    Commit(u64),
    Abort,
    Complete,
}

// The first place that has a row, how many records there are, and the epoch of the row of the key.
type Told = (Option<u64>, usize, Option<u64>);

// The letter of a key, a call on it, and what is told then.
type Line = (u8, Call, Told);

// Prepares an image, whatever it is answered.
fn prepare(rows: &mut Store, key: &Key, image: Option<Value>) {
    let _answer = rows.prepare_image(TX, key, &image);
}

fn insert(rows: &mut Store, key: &Key, value: Value) {
    let _answer = rows.prepare(TX, &Op::Ins(*key, value));
}

fn make(rows: &mut Store, key: &Key, call: Call) -> Result<(), Wrong> {
    let value = Value::new(b"x")?;
    match call {
        Call::Room => rows.make_room(&HashedKey::new(key))?,
        Call::Put(epoch) => rows.put_row(key, &value, epoch)?,
        Call::Prepare => prepare(rows, key, Some(value)),
        Call::Delete => prepare(rows, key, None),
        Call::Insert => insert(rows, key, value),
        _ => end(rows, key, call),
    }
    Ok(())
}

// Those that end what was prepared. No other call comes here.
fn end(rows: &mut Store, key: &Key, call: Call) {
    match call {
        Call::Commit(epoch) => rows.commit(TX, key, epoch),
        Call::Abort => rows.abort(TX, key),
        Call::Complete => rows.complete(TX, key),
        _ => {}
    }
}

fn comes_to(rows: &mut Store, line: &Line) -> Result<bool, Wrong> {
    let key = Key::new(&[line.0])?;
    make(rows, &key, line.1)?;
    Ok((rows.place_from(0), rows.records(), rows.row_epoch(&key)) == line.2)
}

// The first line whose call doesn't come to what it says.
fn first_wrong(rows: &mut Store, lines: &[Line]) -> Result<Option<usize>, Wrong> {
    for (at, line) in lines.iter().enumerate() {
        if !comes_to(rows, line)? {
            return Ok(Some(at));
        }
    }
    Ok(None)
}

// That of calls on a new store.
fn wrong_in(alloc: Global, lines: &[Line]) -> Result<Option<usize>, Wrong> {
    let mut rows = Store::new(alloc)?;
    first_wrong(&mut rows, lines)
}

#[test]
fn a_freed_place_is_taken_again(rt: HostRuntime) -> Result<(), Wrong> {
    let lines = [
        (b'a', Call::Put(1), (Some(0), 0, Some(1))),
        (b'b', Call::Put(2), (Some(0), 0, Some(2))),
        (b'a', Call::Delete, (Some(0), 1, Some(1))),
        (b'a', Call::Commit(6), (Some(1), 1, None)),
        (b'c', Call::Room, (Some(1), 1, None)),
        (b'a', Call::Complete, (Some(1), 0, None)),
        (b'c', Call::Prepare, (Some(1), 1, None)),
        (b'c', Call::Abort, (Some(1), 0, None)),
        (b'd', Call::Put(7), (Some(0), 0, Some(7))),
        (b'e', Call::Insert, (Some(0), 1, None)),
        (b'e', Call::Commit(8), (Some(0), 1, Some(8))),
    ];
    assert_eq!(rt; wrong_in(rt.alloc(), &lines)?, None);
    Ok(())
}

fn puts(rows: &mut Store, key: &Key, value: Value) -> bool {
    rows.prepare(TX, &Op::Put(*key, value)) == Ok(Answer::Done)
}

// Whether the transaction sees this value.
fn is_seen(rows: &Store, key: &Key, value: Value) -> bool {
    rows.seen(TX, key) == Some(value)
}

// Whether this is the row of the key, and the transaction's record on it committed or not.
fn has(rows: &Store, key: &Key, row: Option<Value>, committed: bool) -> bool {
    rows.row(key).copied() == row && rows.record_state(TX, key) == Some(committed)
}

// What is told of the record at a place: whether it is committed, and in which epoch.
fn record_told(rows: &Store, at: usize) -> Option<(bool, u64)> {
    match &rows.record_at(at) {
        Some(record) => Some((record.committed, record.epoch)),
        None => None,
    }
}

// Puts a row into a store, and says whether the transaction alone sees it until it commits.
fn shows(rows: &mut Store, key: &Key, value: Value) -> bool {
    let prepared = puts(rows, key, value)
        && is_seen(rows, key, value)
        && has(rows, key, None, false);
    end(rows, key, Call::Commit(3));
    prepared && has(rows, key, Some(value), true) && record_told(rows, 0) == Some((true, 3))
}

// The same, of a new store.
fn shows_anew(alloc: Global, key: &Key, value: Value) -> Result<bool, Wrong> {
    let mut rows = Store::new(alloc)?;
    Ok(shows(&mut rows, key, value))
}

#[test]
fn a_transaction_sees_its_own_image(rt: HostRuntime) -> Result<(), Wrong> {
    let (key, value) = (Key::new(b"a")?, Value::new(b"1")?);
    assert!(rt; shows_anew(rt.alloc(), &key, value)?);
    Ok(())
}

// What is told of the first three records.
type Records = [Option<(bool, u64)>; 3];

// What is told of the records behind these calls, each of which comes to what its line says.
fn records_behind(rows: &mut Store, lines: &[Line]) -> Result<Records, Wrong> {
    if first_wrong(rows, lines)?.is_some() {
        return Err(Wrong::from("the calls come to what is said"));
    }
    Ok([
        record_told(rows, 0),
        record_told(rows, 1),
        record_told(rows, 2),
    ])
}

fn records_of(alloc: Global, lines: &[Line]) -> Result<Records, Wrong> {
    let mut rows = Store::new(alloc)?;
    records_behind(&mut rows, lines)
}

#[test]
fn a_record_tells_the_epoch_of_its_first_commit(rt: HostRuntime) -> Result<(), Wrong> {
    let lines = [
        (b'a', Call::Prepare, (None, 1, None)),
        (b'b', Call::Prepare, (None, 2, None)),
        (b'a', Call::Commit(6), (Some(0), 2, Some(6))),
        (b'a', Call::Commit(7), (Some(0), 2, Some(6))),
    ];
    let told = records_of(rt.alloc(), &lines)?;
    assert_eq!(rt; told, [Some((true, 6)), Some((false, 0)), None]);
    Ok(())
}

#[test]
fn a_row_has_the_epoch_of_its_last_commit(rt: HostRuntime) -> Result<(), Wrong> {
    let lines = [
        (b'a', Call::Room, (None, 0, None)),
        (b'a', Call::Put(3), (Some(0), 0, Some(3))),
        (b'a', Call::Prepare, (Some(0), 1, Some(3))),
        (b'a', Call::Commit(5), (Some(0), 1, Some(5))),
        (b'a', Call::Complete, (Some(0), 0, Some(5))),
        (b'a', Call::Delete, (Some(0), 1, Some(5))),
        (b'a', Call::Commit(6), (None, 1, None)),
        (b'a', Call::Complete, (None, 0, None)),
        (b'a', Call::Prepare, (None, 1, None)),
        (b'a', Call::Commit(8), (Some(0), 1, Some(8))),
    ];
    assert_eq!(rt; wrong_in(rt.alloc(), &lines)?, None);
    Ok(())
}
