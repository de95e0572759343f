//! Rows worked out by hand, cut short at every length and with every byte changed.
use crate::wrong::Wrong;
use lcp_store::{ROW_BYTES, Version, put_head, put_row, put_row2, row_in, rows_in};
use row_map::RowMap;
use sig_core::{Key, NoMemory, ReadFault, StoredRow, Value};
use std::alloc::Global;
use std::process::Abort;

/// A checkpoint of version 1: the rows `a 1`, `bc` with no value, and `a 23`.
const FIRST: [u8; 13] = [1, b'a', 1, b'1', 2, b'b', b'c', 0, 1, b'a', 2, b'2', b'3'];

/// A checkpoint of version 2: the row `a 1` of epoch 1, and `b` with no value of epoch 258.
const SECOND: [u8; 25] = [
    0, 2, 1, b'a', 0, 0, 0, 0, 0, 0, 0, 1, 1, b'1', 1, b'b', 0, 0, 0, 0, 0, 0, 1, 2, 0,
];

/// A row: its key, its epoch if it has one, and its value.
type Row = (&'static [u8], Option<u64>, &'static [u8]);

const FIRST_ROWS: [Row; 3] = [(b"a", None, b"1"), (b"bc", None, b""), (b"a", None, b"23")];

const SECOND_ROWS: [Row; 2] = [(b"a", Some(1), b"1"), (b"b", Some(258), b"")];

fn stored(row: &Row) -> Result<StoredRow, Wrong> {
    Ok(StoredRow {
        key: Key::new(row.0)?,
        epoch: row.1,
        value: Value::new(row.2)?,
    })
}

fn add(out: &mut Vec<u8>, row: &StoredRow) -> Result<(), NoMemory> {
    match row.epoch {
        Some(epoch) => put_row2(out, &row.key, epoch, row.value.bytes()),
        None => put_row(out, &row.key, row.value.bytes()),
    }
}

/// Adds the bytes of rows.
fn add_all(out: &mut Vec<u8>, rows: &[Row]) -> Result<(), Wrong> {
    for row in rows {
        add(out, &stored(row)?)?;
    }
    Ok(())
}

fn is_read(alloc: Global, latest: u64, bytes: &[u8]) -> bool {
    rows_in(alloc, 2, latest, bytes).is_ok()
}

/// Whether the value of a key is this one, or there is none.
fn has(table: &RowMap, key: &[u8], value: Option<&[u8]>) -> Result<bool, Wrong> {
    Ok(match (table.get(&Key::new(key)?), value) {
        (Some(found), Some(value)) => found.bytes() == value,
        (None, None) => true,
        _ => false,
    })
}

fn expect_damage<R: Abort>(rt: &R, alloc: Global, latest: u64, bytes: &[u8], at: usize, byte: u8) {
    match rows_in(alloc, 2, latest, bytes) {
        Ok(_) => assert!(rt; false, "damage at {at} isn't seen"),
        Err(fault) => assert_eq!(rt;
            fault,
            ReadFault::Damaged {
                file: 2,
                at: at as u64,
                byte
            }
        ),
    }
}

#[test]
fn a_row_of_each_version_is_these_bytes(rt: HostRuntime) -> Result<(), Wrong> {
    let mut out = Vec::new(rt.alloc());
    add_all(&mut out, &FIRST_ROWS)?;
    assert_eq!(rt; out.as_slice(), FIRST.as_slice());
    let mut out = Vec::new(rt.alloc());
    put_head(&mut out)?;
    add_all(&mut out, &SECOND_ROWS)?;
    assert_eq!(rt; out.as_slice(), SECOND.as_slice());
    Ok(())
}

/// The rows of the checkpoint of version 1.
fn first_table(alloc: Global) -> Result<RowMap, Wrong> {
    match rows_in(alloc, 2, 1, &FIRST) {
        Ok(table) => Ok(table),
        Err(_) => Err(Wrong::from("the rows are read")),
    }
}

#[test]
fn the_last_row_of_a_key_counts(rt: HostRuntime) -> Result<(), Wrong> {
    let table = first_table(rt.alloc())?;
    assert!(rt; has(&table, b"a", Some(b"23"))?);
    assert!(rt; has(&table, b"bc", Some(b""))?);
    assert!(rt; has(&table, b"b", None)?);
    Ok(())
}

/// Whether bytes of a checkpoint begin with this row, which takes so many of them, and is of no later epoch than the
/// latest.
fn begin_with(
    version: Version,
    latest: u64,
    bytes: &[u8],
    row: &Row,
    len: usize,
) -> Result<bool, Wrong> {
    Ok(row_in(version, latest, bytes) == Ok((stored(row)?, len)))
}

#[test]
fn rows_have_their_epochs(rt: HostRuntime) -> Result<(), Wrong> {
    let [first, second] = &SECOND_ROWS;
    assert!(rt; begin_with(Version::Second, 1, &SECOND[2..], first, 12)?);
    assert!(rt; begin_with(Version::Second, 258, &SECOND[14..], second, 11)?);
    assert!(rt; begin_with(Version::First, 0, &FIRST[4..], &FIRST_ROWS[1], 4)?);
    Ok(())
}

#[test]
fn an_empty_checkpoint_has_no_rows(rt: HostRuntime) -> Result<(), Wrong> {
    assert!(rt; is_read(rt.alloc(), 0, b""));
    assert!(rt; is_read(rt.alloc(), 0, &[0, 2]));
    expect_damage(&rt, rt.alloc(), 0, &[0], 1, 0);
    expect_damage(&rt, rt.alloc(), 0, &[0, 1, 1], 1, 1);
    Ok(())
}

/// Asserts that a checkpoint cut anywhere but at these ends of rows is damaged there.
fn expect_cuts<R: Abort>(rt: &R, alloc: Global, latest: u64, whole: &[u8], ends: [usize; 3]) {
    for size in 0..whole.len() {
        if ends.contains(&size) {
            assert!(rt; is_read(alloc, latest, &whole[..size]), "{size}");
        } else {
            expect_damage(rt, alloc, latest, &whole[..size], size, 0);
        }
    }
}

#[test]
fn rows_cut_short_are_damaged_at_their_end(rt: HostRuntime) {
    expect_cuts(&rt, rt.alloc(), 1, &FIRST, [0, 4, 8]);
    expect_cuts(&rt, rt.alloc(), 258, &SECOND, [0, 2, 14]);
}

#[test]
fn a_row_epoch_above_the_latest_one_is_damage(rt: HostRuntime) {
    assert!(rt; is_read(rt.alloc(), 258, &SECOND));
    expect_damage(&rt, rt.alloc(), 257, &SECOND, 16, 0);
    expect_damage(&rt, rt.alloc(), 0, &SECOND, 4, 0);
}

/// What a length, or a byte of a word, must be for the byte to fit where it stands.
#[derive(Clone, Copy)]
enum Place {
    Length { least: u8, most: u8 },
    Byte,
}

fn fits(place: Place, byte: u8) -> bool {
    match place {
        Place::Length { least, most } => least <= byte && byte <= most,
        Place::Byte => 0x21 <= byte && byte <= 0x7e,
    }
}

/// What comes of `a 1` with another byte: one that doesn't fit is named, and a length that fits and isn't
/// right leaves bytes cut short or over.
fn expect_byte<R: Abort>(rt: &R, alloc: Global, at: usize, place: Place, byte: u8) {
    let mut bytes = [1, b'a', 1, b'1'];
    if at < bytes.len() {
        bytes[at] = byte;
    }
    if fits(place, byte) {
        expect_fit(rt, alloc, &bytes, at, place);
    } else {
        expect_misfit(rt, alloc, &bytes, at, byte);
    }
}

/// A 0 in front is the head of version 2, whose second byte is another.
fn expect_misfit<R: Abort>(rt: &R, alloc: Global, bytes: &[u8], at: usize, byte: u8) {
    if at == 0 && byte == 0 {
        expect_damage(rt, alloc, 0, bytes, 1, b'a');
    } else {
        expect_damage(rt, alloc, 0, bytes, at, byte);
    }
}

fn expect_fit<R: Abort>(rt: &R, alloc: Global, bytes: &[u8; 4], at: usize, place: Place) {
    match place {
        Place::Byte => assert!(rt; is_read(alloc, 0, bytes)),
        Place::Length { .. } => expect_length(rt, alloc, bytes, at),
    }
}

fn expect_place<R: Abort>(rt: &R, alloc: Global, at: usize, place: Place) {
    for byte in 0..=255u8 {
        expect_byte(rt, alloc, at, place, byte);
    }
}

#[test]
fn every_changed_byte_is_named(rt: HostRuntime) {
    expect_place(&rt, rt.alloc(), 0, Place::Length { least: 1, most: 32 });
    expect_place(&rt, rt.alloc(), 1, Place::Byte);
    let value = Place::Length {
        least: 0,
        most: 200,
    };
    expect_place(&rt, rt.alloc(), 2, value);
    expect_place(&rt, rt.alloc(), 3, Place::Byte);
}

/// What comes of `a 1` with another length: of the key, whose next byte that is no printable one is
/// named, or of the value.
fn expect_length<R: Abort>(rt: &R, alloc: Global, bytes: &[u8; 4], at: usize) {
    if bytes[0] == 1 && bytes[2] == 1 {
        assert!(rt; is_read(alloc, 0, bytes));
    } else if at == 0 {
        expect_damage(rt, alloc, 0, bytes, 2, 1);
    } else if bytes[2] == 0 {
        // the value's byte is then the length of a key: 49
        expect_damage(rt, alloc, 0, bytes, 3, b'1');
    } else {
        expect_damage(rt, alloc, 0, bytes, 4, 0);
    }
}

/// The longest row there can be.
fn longest() -> Result<StoredRow, Wrong> {
    Ok(StoredRow {
        key: Key::new(&[b'~'; 32])?,
        epoch: Some(u64::MAX),
        value: Value::new(&[b'!'; 200])?,
    })
}

/// Whether the bytes, however short they are cut, begin with no row, and end too early.
fn bears_cuts(bytes: &[u8]) -> bool {
    for cut in 0..bytes.len() {
        if row_in(Version::Second, u64::MAX, &bytes[..cut]) != Err(0) {
            return false;
        }
    }
    true
}

#[test]
fn the_longest_row_fits(rt: HostRuntime) -> Result<(), Wrong> {
    let row = longest()?;
    let mut out = Vec::new(rt.alloc());
    add(&mut out, &row)?;
    assert_eq!(rt; out.len(), ROW_BYTES);
    assert!(rt; row_in(Version::Second, u64::MAX, &out) == Ok((row, ROW_BYTES)));
    assert!(rt; bears_cuts(&out));
    Ok(())
}
