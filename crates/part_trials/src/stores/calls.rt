//! Random calls, on the row store and on rows as they are defined.
use crate::dice::Dice;
use crate::stopped::Stopped;
use crate::stores::call::{Call, Outcome, RowAt, Told};
use crate::stores::plain::Plain;
use frag_store::Store;
use sig_core::{
    Answer, HashedKey, Key, NoMemory, Op, PLACES, PendingRecord, Rows, RowsFault, TxId, Value,
};
use std::alloc::Global;

/// How many keys and transactions there are.
const KEYS: u64 = 300;

const TRANSACTIONS: u64 = 5;

/// All places and records are compared after so many calls each time.
const STRETCH: u64 = 1_000;

fn after(call: Result<(), NoMemory>) -> Outcome {
    match call {
        Ok(()) => Outcome::Done,
        Err(NoMemory) => Outcome::Starved,
    }
}

fn answered(call: Result<Answer, RowsFault>) -> Outcome {
    match call {
        Ok(answer) => Outcome::Answered(answer),
        Err(fault) => Outcome::Refused(fault),
    }
}

fn written(call: Result<(), RowsFault>) -> Outcome {
    match call {
        Ok(()) => Outcome::Done,
        Err(fault) => Outcome::Refused(fault),
    }
}

fn make(rows: &mut Store, tx: TxId, key: &Key, call: Call, value: &Value, epoch: u64) -> Outcome {
    match call {
        Call::Room => after(rows.make_room(&HashedKey::new(key))),
        Call::Insert => answered(rows.prepare(tx, &Op::Ins(*key, *value))),
        Call::Update => answered(rows.prepare(tx, &Op::Upd(*key, *value))),
        Call::Delete => answered(rows.prepare(tx, &Op::Del(*key))),
        Call::Read => answered(rows.prepare(tx, &Op::Get(*key))),
        Call::Write => written(rows.prepare_image(tx, key, &Some(*value))),
        Call::Erase => written(rows.prepare_image(tx, key, &None)),
        Call::Put => after(rows.put_row(key, value, epoch)),
        Call::Commit => {
            rows.commit(tx, key, epoch);
            Outcome::Done
        }
        Call::Abort => {
            rows.abort(tx, key);
            Outcome::Done
        }
        Call::Complete => {
            rows.complete(tx, key);
            Outcome::Done
        }
    }
}

fn tell(rows: &mut Store, tx: TxId, key: &Key, call: Call, value: &Value, epoch: u64) -> Told {
    Told {
        outcome: make(rows, tx, key, call, value, epoch),
        row: rows.row(key).copied(),
        epoch: rows.row_epoch(key),
        seen: rows.seen(tx, key),
        state: rows.record_state(tx, key),
        records: rows.records(),
    }
}

// The row at the least place at or above this one that has one.
#[tactic(auto, unfolding(sig_core::specs::Rows::next_place), using(crate::proofs::NextLemmas::row_place))]
fn row_from(rows: &Store, from: u64) -> Option<RowAt> {
    match rows.place_from(from) {
        Some(at) => {
            let (key, value) = rows.at_place(at);
            Some(RowAt {
                at,
                key: *key,
                value: *value,
                epoch: rows.row_epoch(key),
            })
        }
        None => None,
    }
}

fn same_record(one: &PendingRecord, other: &PendingRecord) -> bool {
    one.tx == other.tx
        && one.key == other.key
        && one.image == other.image
        && one.committed == other.committed
        && one.epoch == other.epoch
}

// Whether both have the same rows at the same places.
fn same_rows(store: &Store, plain: &Plain) -> bool {
    let mut from = 0u64;
    for _ in 0..=PLACES {
        let row = row_from(store, from);
        if row != plain.row_from(from) {
            return false;
        }
        match row {
            Some(row) => from = row.at.saturating_add(1),
            None => return true,
        }
    }
    true
}

// Whether both have the same records in the same order.
fn same_records(store: &Store, plain: &Plain) -> bool {
    for (at, record) in plain.records().iter().enumerate() {
        match store.record_at(at) {
            Some(twin) if same_record(&twin, record) => {}
            _ => return false,
        }
    }
    store.records() == plain.records().len()
}

fn key_of(number: u64) -> Result<Key, Stopped> {
    let high = b'A' + (number / 30 % 30) as u8;
    let low = b'A' + (number % 30) as u8;
    Ok(Key::new(&[high, low])?)
}

fn value_of(dice: &mut Dice) -> Result<Value, Stopped> {
    Ok(Value::new(&[b'0' + dice.roll(50) as u8])?)
}

fn call_of(dice: &mut Dice) -> Call {
    match dice.roll(14) {
        0 => Call::Room,
        1 => Call::Insert,
        2 => Call::Update,
        3 => Call::Delete,
        4 => Call::Read,
        5 | 6 => Call::Write,
        7 => Call::Erase,
        8 | 9 => Call::Commit,
        10 => Call::Abort,
        11 | 12 => Call::Complete,
        _ => Call::Put,
    }
}

// One call on both, and whether they then tell the same.
fn turn(
    dice: &mut Dice,
    store: &mut Store,
    plain: &mut Plain,
    epoch: u64,
) -> Result<bool, Stopped> {
    let tx = TxId {
        tc: 1,
        start: 0,
        seq: dice.roll(TRANSACTIONS),
    };
    let key = key_of(dice.roll(KEYS))?;
    let value = value_of(dice)?;
    let call = call_of(dice);
    // They are only named: the check follows what is told where it has heard of these types, which
    // it may hold.
    let _unused: Option<(Answer, Outcome)> = None;
    let expected = plain.tell(tx, &key, call, &value, epoch)?;
    Ok(tell(store, tx, &key, call, &value, epoch) == expected)
}

// Some calls, and whether both tell the same after each, and have the same rows and records at last.
fn stretch(
    dice: &mut Dice,
    store: &mut Store,
    plain: &mut Plain,
    count: u64,
) -> Result<bool, Stopped> {
    for epoch in 0..count {
        if !turn(dice, store, plain, epoch)? {
            return Ok(false);
        }
    }
    Ok(same_rows(store, plain) && same_records(store, plain))
}

// The number of calls before the first stretch in which they differ.
fn first_wrong(
    dice: &mut Dice,
    store: &mut Store,
    plain: &mut Plain,
    count: u64,
) -> Result<Option<u64>, Stopped> {
    for made in (0..count).step_by(STRETCH as usize) {
        let calls = STRETCH.min(count.saturating_sub(made));
        if !stretch(dice, store, plain, calls)? {
            return Ok(Some(made));
        }
    }
    Ok(None)
}

fn compare(
    alloc: Global,
    seed: u64,
    store: &mut Store,
    count: u64,
) -> Result<Option<u64>, Stopped> {
    let mut plain = Plain::new(alloc);
    first_wrong(&mut Dice::new(seed), store, &mut plain, count)
}

fn report(
    rt: &HostRuntime,
    count: u64,
    wrong: Option<u64>,
    records: usize,
) -> Result<bool, Stopped> {
    match wrong {
        Some(made) => {
            let end = made.saturating_add(STRETCH);
            println!(rt; "calls {made} to {end}: not the same")?;
            Ok(false)
        }
        None => {
            println!(rt; "{count} calls: the same, {records} records at last")?;
            Ok(true)
        }
    }
}

/// Makes so many calls on both, and tells whether they told the same.
pub fn try_calls(rt: &HostRuntime, seed: u64, count: u64) -> Result<bool, Stopped> {
    let mut store = Store::new(rt.alloc())?;
    let wrong = compare(rt.alloc(), seed, &mut store, count)?;
    report(rt, count, wrong, store.records())
}
