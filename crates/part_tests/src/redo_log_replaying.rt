use crate::wrong::Wrong;
use redo_log::replay_bytes;
use row_map::RowMap;
use sig_core::{Key, ReadFault};
use std::alloc::Global;

// A prepare of transaction (1, 0, 1) of the row `a 1`, and its commit in epoch 1.
pub(crate) const PAIR: [u8; 48] = [
    0x01, 0x00, 0x16, 0x01, 0, 0, 0, 0, 0, 0, 0, 0, 0, 0, 0, 1, 0x01, 0x01, 0x01, 0x61, 0x01, 0x31,
    0x02, 0x00, 0x1a, 0x01, 0, 0, 0, 0, 0, 0, 0, 0, 0, 0, 0, 1, 0, 0, 0, 0, 0, 0, 0, 1, 0x01, 0x61,
];

// That prepare, one of the row `a 2` behind it, and the commit.
const TWICE: [u8; 70] = [
    0x01, 0x00, 0x16, 0x01, 0, 0, 0, 0, 0, 0, 0, 0, 0, 0, 0, 1, 0x01, 0x01, 0x01, 0x61, 0x01, 0x31,
    0x01, 0x00, 0x16, 0x01, 0, 0, 0, 0, 0, 0, 0, 0, 0, 0, 0, 1, 0x01, 0x01, 0x01, 0x61, 0x01, 0x32,
    0x02, 0x00, 0x1a, 0x01, 0, 0, 0, 0, 0, 0, 0, 0, 0, 0, 0, 1, 0, 0, 0, 0, 0, 0, 0, 1, 0x01, 0x61,
];

// The prepare, an abort, and the commit.
const ABORTED: [u8; 66] = [
    0x01, 0x00, 0x16, 0x01, 0, 0, 0, 0, 0, 0, 0, 0, 0, 0, 0, 1, 0x01, 0x01, 0x01, 0x61, 0x01, 0x31,
    0x03, 0x00, 0x12, 0x01, 0, 0, 0, 0, 0, 0, 0, 0, 0, 0, 0, 1, 0x01, 0x61, 0x02, 0x00, 0x1a, 0x01,
    0, 0, 0, 0, 0, 0, 0, 0, 0, 0, 0, 1, 0, 0, 0, 0, 0, 0, 0, 1, 0x01, 0x61,
];

// Whether replay of the bytes for this epoch leaves this value of `a`; an empty one stands for none.
fn leaves(alloc: Global, bytes: &[u8], epoch: u64, value: &[u8]) -> bool {
    let Ok(key) = Key::new(b"a") else {
        return false;
    };
    let mut rows = RowMap::new(alloc);
    if bytes.len() > 100 || replay_bytes(alloc, &mut rows, 0, 0, bytes, epoch).is_err() {
        return false;
    }
    match rows.get(&key) {
        Some(row) => row.bytes() == value,
        None => value.is_empty(),
    }
}

// The place at which replay finds the bytes damaged, and the byte there.
fn damage_of(alloc: Global, bytes: &[u8]) -> Option<(u64, u8)> {
    let mut rows = RowMap::new(alloc);
    if bytes.len() > 100 {
        return None;
    }
    match replay_bytes(alloc, &mut rows, 0, 0, bytes, 1) {
        Err(ReadFault::Damaged { file: 4, at, byte }) => Some((at, byte)),
        _ => None,
    }
}

#[test]
fn a_commit_counts_from_its_epoch_on(rt: HostRuntime) {
    assert!(rt; leaves(rt.alloc(), &PAIR, 0, b""));
    assert!(rt; leaves(rt.alloc(), &PAIR, 1, b"1"));
    assert!(rt; leaves(rt.alloc(), &PAIR[..0], 1, b""));
}

#[test]
fn the_latest_prepare_of_a_commit_counts(rt: HostRuntime) {
    assert!(rt; leaves(rt.alloc(), &TWICE, 1, b"2"));
    assert!(rt; leaves(rt.alloc(), &PAIR[22..], 1, b""));
    assert!(rt; leaves(rt.alloc(), &PAIR[..22], 1, b""));
    assert!(rt; leaves(rt.alloc(), &ABORTED, 1, b""));
}

// Whether a log cut anywhere but behind a record is damaged at its end.
fn bears_cuts(alloc: Global) -> bool {
    for len in 0..48 {
        let found = damage_of(alloc, &PAIR[..len]);
        let whole = len == 0 || len == 22;
        if whole != found.is_none() || !whole && found != Some((len as u64, 0)) {
            return false;
        }
    }
    true
}

// Whether a log of which another byte stands at some place is damaged nowhere before it.
fn bears_flips(alloc: Global) -> bool {
    let mut bytes = PAIR;
    for place in 0..48 {
        let right = bytes[place];
        for flip in 1..=255 {
            bytes[place] = right ^ flip;
            if let Some((at, _)) = damage_of(alloc, &bytes)
                && at < place as u64
            {
                return false;
            }
        }
        bytes[place] = right;
    }
    true
}

#[test]
fn a_log_cut_or_flipped_is_damaged_there_or_behind(rt: HostRuntime) {
    assert!(rt; bears_cuts(rt.alloc()));
    assert!(rt; bears_flips(rt.alloc()));
}

#[test]
fn damage_is_named_in_the_ring(rt: HostRuntime) -> Result<(), Wrong> {
    let mut rows = RowMap::new(rt.alloc());
    let fault = replay_bytes(
        rt.alloc(),
        &mut rows,
        1,
        4_194_300,
        &[1, 0, 22, 1, 0, 0, 9],
        1,
    );
    let named = ReadFault::Damaged {
        file: 9,
        at: 3,
        byte: 0,
    };
    assert_eq!(rt; fault, Err(named));
    Ok(())
}
