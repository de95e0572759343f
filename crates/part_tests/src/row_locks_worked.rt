//! Worked cases: calls on keys, and what each is to answer.
use crate::wrong::Wrong;
use row_locks::{Lock, LockTable, Mode};
use sig_core::{Key, TxId};
use std::alloc::Global;

// A call on a key, with the number of a transaction, and what it is to answer.
#[derive(Clone, Copy)]
enum Line {
    // Whom it is queued behind; nobody where it is granted.
    Share(u64, Option<u64>),
    Exclude(u64, Option<u64>),
    // How many are granted.
    Release(u64, usize),
    Unwait(u64, usize),
    UnwaitAll,
    // So many rounds.
    Age(u64),
    Holder(usize, Option<u64>),
    Ahead(u64, Option<u64>),
    // Who waits, and for the key of which letter.
    Expired(Option<(u64, u8)>),
}

// A transaction of the coordinator on node 1; number 0 is of the copying of rows.
fn tx(n: u64) -> TxId {
    TxId {
        tc: if n == 0 { 0 } else { 1 },
        start: 0,
        seq: n,
    }
}

fn is(found: Option<TxId>, n: Option<u64>) -> bool {
    match (found, n) {
        (Some(found), Some(n)) => found == tx(n),
        (None, None) => true,
        _ => false,
    }
}

// Whether a request is answered so.
fn asks(
    locks: &mut LockTable,
    key: &Key,
    n: u64,
    mode: Mode,
    behind: Option<u64>,
) -> Result<bool, Wrong> {
    Ok(match (locks.request(tx(n), key, mode)?, behind) {
        (Lock::Granted, None) => true,
        (Lock::Queued { ahead }, Some(n)) => ahead == tx(n),
        _ => false,
    })
}

fn ages(locks: &mut LockTable, rounds: u64) -> bool {
    for _ in 0..rounds {
        locks.age_round();
    }
    true
}

fn unwaits_all(locks: &mut LockTable) -> bool {
    locks.unwait_all();
    true
}

fn expires(locks: &LockTable, wait: Option<(u64, u8)>) -> bool {
    match (locks.expired(), wait) {
        (Some((found, key)), Some((n, letter))) => found == tx(n)
            && key.bytes() == [letter].as_slice(),
        (None, None) => true,
        _ => false,
    }
}

fn fits(locks: &mut LockTable, key: &Key, line: Line) -> Result<bool, Wrong> {
    Ok(match line {
        Line::Share(n, behind) => asks(locks, key, n, Mode::Shared, behind)?,
        Line::Exclude(n, behind) => asks(locks, key, n, Mode::Exclusive, behind)?,
        Line::Release(n, granted) => locks.release(tx(n), key) == granted,
        Line::Unwait(n, granted) => locks.unwait(tx(n), key) == granted,
        Line::UnwaitAll => unwaits_all(locks),
        Line::Age(rounds) => ages(locks, rounds),
        Line::Holder(at, n) => is(locks.holder(key, at), n),
        Line::Ahead(n, before) => is(locks.ahead(tx(n), key), before),
        Line::Expired(wait) => expires(locks, wait),
    })
}

// A line, and the letter of the key that it is on.
type Row = (u8, Line);

// The first row, of calls on a new table, that isn't answered so.
fn first_wrong(alloc: Global, rows: &[Row]) -> Result<Option<usize>, Wrong> {
    let mut locks = LockTable::new(alloc)?;
    wrong_in(&mut locks, rows)
}

fn wrong_in(locks: &mut LockTable, rows: &[Row]) -> Result<Option<usize>, Wrong> {
    for (at, row) in rows.iter().enumerate() {
        if !fits(locks, &Key::new(&[row.0])?, row.1)? {
            return Ok(Some(at));
        }
    }
    Ok(None)
}

// Two share, and an exclusive request waits.
const SHARED: [Row; 15] = [
    (b'a', Line::Share(1, None)),
    (b'a', Line::Share(2, None)),
    (b'a', Line::Share(2, None)),
    (b'a', Line::Exclude(3, Some(1))),
    (b'a', Line::Share(4, Some(1))),
    (b'a', Line::Holder(1, Some(2))),
    (b'a', Line::Holder(2, None)),
    (b'a', Line::Release(1, 0)),
    (b'a', Line::Ahead(3, Some(2))),
    (b'a', Line::Release(2, 1)),
    (b'a', Line::Holder(0, Some(3))),
    (b'a', Line::Release(3, 1)),
    (b'a', Line::Holder(0, Some(4))),
    (b'a', Line::Release(4, 0)),
    (b'a', Line::Holder(0, None)),
];

// A raise is granted at once, or stands first.
const RAISED: [Row; 11] = [
    (b'a', Line::Share(1, None)),
    (b'a', Line::Exclude(1, None)),
    (b'a', Line::Share(2, Some(1))),
    (b'a', Line::Share(3, Some(1))),
    (b'a', Line::Release(1, 2)),
    (b'a', Line::Exclude(4, Some(2))),
    (b'a', Line::Exclude(2, Some(3))),
    (b'a', Line::Release(3, 1)),
    (b'a', Line::Holder(0, Some(2))),
    (b'a', Line::Holder(1, None)),
    (b'a', Line::Ahead(4, Some(2))),
];

// Who waits no more keeps what it holds.
const UNWAITED: [Row; 12] = [
    (b'a', Line::Share(1, None)),
    (b'a', Line::Share(2, None)),
    (b'a', Line::Exclude(1, Some(2))),
    (b'a', Line::Share(3, Some(1))),
    (b'a', Line::Unwait(1, 1)),
    (b'a', Line::Ahead(1, None)),
    (b'a', Line::Holder(0, Some(1))),
    (b'a', Line::Holder(2, Some(3))),
    (b'a', Line::Exclude(4, Some(1))),
    (b'a', Line::UnwaitAll),
    (b'a', Line::Ahead(4, None)),
    (b'a', Line::Holder(3, None)),
];

// Waits age to eight rounds.
const AGED: [Row; 15] = [
    (b'b', Line::Exclude(1, None)),
    (b'b', Line::Share(0, Some(1))),
    (b'b', Line::Share(2, Some(1))),
    (b'a', Line::Exclude(1, None)),
    (b'a', Line::Share(0, Some(1))),
    (b'a', Line::Share(2, Some(1))),
    (b'a', Line::Age(7)),
    (b'a', Line::Expired(None)),
    (b'a', Line::Age(1)),
    (b'a', Line::Expired(Some((2, b'a')))),
    (b'a', Line::Age(1)),
    (b'a', Line::Unwait(2, 0)),
    (b'b', Line::Expired(Some((2, b'b')))),
    (b'b', Line::Unwait(2, 0)),
    (b'b', Line::Expired(None)),
];

// Who stood eight rounds is not granted.
const STOOD: [Row; 12] = [
    (b'a', Line::Exclude(1, None)),
    (b'a', Line::Share(2, Some(1))),
    (b'a', Line::Age(1)),
    (b'a', Line::Share(3, Some(1))),
    (b'a', Line::Age(7)),
    (b'a', Line::Release(1, 0)),
    (b'a', Line::Holder(0, None)),
    (b'a', Line::Expired(Some((2, b'a')))),
    (b'a', Line::Share(4, Some(4))),
    (b'a', Line::Unwait(2, 2)),
    (b'a', Line::Holder(0, Some(3))),
    (b'a', Line::Holder(1, Some(4))),
];

#[test]
fn calls_are_answered_as_the_tables_say(rt: HostRuntime) -> Result<(), Wrong> {
    let tables = [
        SHARED.as_slice(),
        RAISED.as_slice(),
        UNWAITED.as_slice(),
        AGED.as_slice(),
        STOOD.as_slice(),
    ];
    for (table, rows) in tables.iter().enumerate() {
        assert_eq!(rt; first_wrong(rt.alloc(), rows)?, None, "in table {table}");
    }
    Ok(())
}
