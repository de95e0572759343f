use crate::wrong::Wrong;
use serial_model::{ReplayFault, cut_to_epoch, do_op, replay};
use sig_core::{Answer, Entry, HostId, Key, Op, Seq, Table, TxId, Value};
use std::alloc::Global;

// The first operation of a table that isn't answered so.
fn first_wrong(table: &mut Table, script: &[(Op, Answer)]) -> Option<usize> {
    for (at, (op, answer)) in script.iter().enumerate() {
        if do_op(table, op).ok() != Some(*answer) {
            return Some(at);
        }
    }
    None
}

#[test]
fn operations_answer_as_the_manual_says(rt: HostRuntime) -> Result<(), Wrong> {
    let (key, one, two) = (Key::new(b"a")?, Value::new(b"1")?, Value::new(b"2")?);
    let mut table = Table::new(rt.alloc());
    let script = [
        (Op::Get(key), Answer::Missing),
        (Op::Upd(key, one), Answer::E626),
        (Op::Del(key), Answer::E626),
        (Op::Ins(key, one), Answer::Done),
        (Op::Ins(key, two), Answer::E630),
        (Op::GetX(key), Answer::Found(one)),
        (Op::Upd(key, two), Answer::Done),
        (Op::Get(key), Answer::Found(two)),
        (Op::Put(key, one), Answer::Done),
        (Op::Del(key), Answer::Done),
        (Op::GetX(key), Answer::Missing),
    ];
    assert_eq!(rt; first_wrong(&mut table, &script), None);
    Ok(())
}

/// An entry of these operations, decided in this epoch.
fn entry(alloc: Global, epoch: u64, ops: &[(Op, Answer)]) -> Result<Entry, Wrong> {
    Ok(Entry {
        tx: TxId {
            tc: 1,
            start: 0,
            seq: epoch,
        },
        view: 1,
        stamp: 1,
        host: HostId(1),
        epoch,
        ops: Seq::from_vec(ops.to_vec(alloc)?),
    })
}

// Whether replay of entries finds that an operation differs: its entry and its place there, the answer that is stored,
// and the one that is found.
fn differs(
    alloc: Global,
    entries: &[Entry],
    place: (usize, usize),
    stored: Answer,
    found: Answer,
) -> bool {
    let (entry, op) = place;
    let differs = ReplayFault::Differs {
        entry,
        op,
        stored,
        found,
    };
    replay(alloc, &[], entries).err() == Some(differs)
}

#[test]
fn answer_that_was_not_given_is_found(rt: HostRuntime) -> Result<(), Wrong> {
    let (key, one) = (Key::new(b"a")?, Value::new(b"1")?);
    let entries = [entry(rt.alloc(), 1, &[(Op::Ins(key, one), Answer::E630)])?];
    assert!(rt; differs(rt.alloc(), &entries, (0, 0), Answer::E630, Answer::Done));
    Ok(())
}

// Whether replay of entries over these rows leaves `a 3`, and no row of `b`.
fn leaves_three(alloc: Global, start: &[(Key, Value)], entries: &[Entry], a: Key, b: Key) -> bool {
    match replay(alloc, start, entries) {
        Ok(table) => {
            let found = table.get(&a).map(|value| value.bytes() == b"3".as_slice());
            found == Some(true) && table.get(&b).is_none()
        }
        Err(_) => false,
    }
}

#[test]
fn legal_list_replays_over_start_rows(rt: HostRuntime) -> Result<(), Wrong> {
    let (a, b) = (Key::new(b"a")?, Key::new(b"b")?);
    let (one, two, three) = (Value::new(b"1")?, Value::new(b"2")?, Value::new(b"3")?);
    let start = [(a, one), (b, one), (a, two)];
    let first = [
        (Op::Get(a), Answer::Found(two)),
        (Op::Upd(a, three), Answer::Done),
    ];
    let second = [(Op::Ins(a, one), Answer::E630), (Op::Del(b), Answer::Done)];
    let entries = [
        entry(rt.alloc(), 1, &first)?,
        entry(rt.alloc(), 2, &second)?,
    ];
    assert!(rt; leaves_three(rt.alloc(), &start, &entries, a, b));
    Ok(())
}

#[test]
fn difference_in_a_later_entry_is_placed(rt: HostRuntime) -> Result<(), Wrong> {
    let (key, one, two) = (Key::new(b"a")?, Value::new(b"1")?, Value::new(b"2")?);
    let first = [(Op::Ins(key, one), Answer::Done)];
    let second = [
        (Op::Put(key, two), Answer::Done),
        (Op::Get(key), Answer::Found(one)),
    ];
    let entries = [
        entry(rt.alloc(), 1, &first)?,
        entry(rt.alloc(), 1, &second)?,
    ];
    let (stored, found) = (Answer::Found(one), Answer::Found(two));
    assert!(rt; differs(rt.alloc(), &entries, (1, 1), stored, found));
    Ok(())
}

// How many are kept of entries up to an epoch, and the epoch of the first.
fn kept(alloc: Global, entries: &[Entry], epoch: u64) -> Option<(usize, Option<u64>)> {
    match cut_to_epoch(alloc, entries, epoch) {
        Ok(kept) => Some((kept.len(), kept.first().map(|entry| entry.epoch))),
        Err(_) => None,
    }
}

#[test]
fn cut_keeps_entries_up_to_the_epoch(rt: HostRuntime) -> Result<(), Wrong> {
    let (key, one) = (Key::new(b"a")?, Value::new(b"1")?);
    let entries = [
        entry(rt.alloc(), 1, &[(Op::Ins(key, one), Answer::Done)])?,
        entry(rt.alloc(), 2, &[(Op::Del(key), Answer::Done)])?,
    ];
    assert!(rt; kept(rt.alloc(), &entries, 1) == Some((1, Some(1))));
    assert!(rt; kept(rt.alloc(), &entries, 0) == Some((0, None)));
    Ok(())
}
