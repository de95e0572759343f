use crate::wrong::Wrong;
use redo_format::{FormatFault, decode, encode, size_of};
use sig_core::{Key, Redo, TxId, Value};

const PREPARE: [u8; 22] = [
    0x01, 0x00, 0x16, 0x01, 0, 0, 0, 0, 0, 0, 0, 0, 0, 0, 0, 1, 0x01, 0x01, 0x01, 0x61, 0x01, 0x31,
];

const COMMIT: [u8; 26] = [
    0x02, 0x00, 0x1a, 0x01, 0, 0, 0, 0, 0, 0, 0, 0, 0, 0, 0, 1, 0, 0, 0, 0, 0, 0, 0, 1, 0x01, 0x61,
];

const ABORT: [u8; 18] = [
    0x03, 0x00, 0x12, 0x01, 0, 0, 0, 0, 0, 0, 0, 0, 0, 0, 0, 1, 0x01, 0x61,
];

#[test]
fn a_prepare_has_its_bytes(rt: HostRuntime) -> Result<(), Wrong> {
    let mut out = Vec::new(rt.alloc());
    let prepare = Redo::Prepare {
        tx: TxId {
            tc: 1,
            start: 0,
            seq: 1,
        },
        fragment: 1,
        key: Key::new(b"a")?,
        image: Some(Value::new(b"1")?),
    };
    encode(&prepare, &mut out)?;
    assert_eq!(rt; out.as_slice(), PREPARE.as_slice());
    assert_eq!(rt; size_of(&prepare), 22);
    Ok(())
}

#[test]
fn a_commit_and_an_abort_have_their_bytes(rt: HostRuntime) -> Result<(), Wrong> {
    let tx = TxId {
        tc: 1,
        start: 0,
        seq: 1,
    };
    let key = Key::new(b"a")?;
    let mut out = Vec::new(rt.alloc());
    encode(&Redo::Commit { tx, epoch: 1, key }, &mut out)?;
    assert_eq!(rt; out.as_slice(), COMMIT.as_slice());
    out.clear();
    encode(&Redo::Abort { tx, key }, &mut out)?;
    assert_eq!(rt; out.as_slice(), ABORT.as_slice());
    Ok(())
}

// Whether the bytes begin with no record, and the fault is at this place.
fn fails_at(bytes: &[u8], place: usize) -> bool {
    match decode(bytes) {
        Ok((_found, _taken)) => false,
        Err(FormatFault::NotRecord { at }) => at == place,
    }
}

// However short a record is cut, what is left is none, and the fault is at its end.
fn bears_cuts(whole: &[u8]) -> bool {
    for len in 0..whole.len() {
        if !fails_at(&whole[..len], len) {
            return false;
        }
    }
    true
}

#[test]
fn a_record_cut_at_any_length_is_none(rt: HostRuntime) {
    assert!(rt; bears_cuts(&PREPARE));
    assert!(rt; bears_cuts(&COMMIT));
    assert!(rt; bears_cuts(&ABORT));
}

#[test]
fn a_flipped_byte_gives_another_record_or_none(rt: HostRuntime) {
    let mut prepare = PREPARE;
    assert!(rt; bears_flips(&mut prepare));
    let mut commit = COMMIT;
    assert!(rt; bears_flips(&mut commit));
    let mut abort = ABORT;
    assert!(rt; bears_flips(&mut abort));
}

// Replaces each byte of a record by each other one.
fn bears_flips(bytes: &mut [u8]) -> bool {
    for place in 0..bytes.len() {
        let right = bytes[place];
        for flip in 1..=255 {
            bytes[place] = right ^ flip;
            if !is_another_or_none(bytes, place) {
                return false;
            }
        }
        bytes[place] = right;
    }
    true
}

// The bytes, of which another one stands at `place`, begin with a record that this byte is in, or
// the fault is at that byte or behind it.
fn is_another_or_none(bytes: &[u8], place: usize) -> bool {
    match decode(bytes) {
        Ok((found, taken)) => place < taken && size_of(&found) == taken as u64,
        Err(FormatFault::NotRecord { at }) => place <= at && at <= bytes.len(),
    }
}

// Whether a prepare of which another byte stands at `place` fails at the place `at`.
fn fails_with(place: usize, byte: u8, at: usize) -> bool {
    let mut bytes = PREPARE;
    if place < 22 {
        bytes[place] = byte;
    }
    fails_at(&bytes, at)
}

// The first byte that fits no record is named, also where a length disagrees with a later one.
#[test]
fn the_first_byte_that_fits_no_record_is_named(rt: HostRuntime) {
    assert!(rt; fails_with(0, 0x04, 0));
    assert!(rt; fails_with(1, 0x01, 1));
    assert!(rt; fails_with(2, 0x13, 2));
    assert!(rt; fails_with(3, 0x09, 3));
    assert!(rt; fails_with(16, 0x20, 16));
    assert!(rt; fails_with(17, 0x02, 17));
    assert!(rt; fails_with(20, 0x02, 20));
}
