//! Rows of one letter, and whether groups have the rows that they should.
use crate::restarts::trouble::Trouble;
use row_map::RowMap;
use sig_core::{Key, Seq, Value};
use std::alloc::Global;

/// A key of one letter.
///
/// # Errors
/// `Word` where it is none.
pub fn key_of(letter: u8) -> Result<Key, Trouble> {
    Ok(Key::new(&[letter])?)
}

/// A value of one letter.
///
/// # Errors
/// As of `key_of`.
pub fn value_of(letter: u8) -> Result<Value, Trouble> {
    Ok(Value::new(&[letter])?)
}

/// Puts a row of one letter.
pub fn put_letter(rows: &mut RowMap, key: u8, value: u8) -> Result<(), Trouble> {
    let value = value_of(value)?;
    Ok(rows.insert(key_of(key)?, value.bytes())?)
}

/// These rows.
pub fn table_of(alloc: Global, letters: &[(u8, u8)]) -> Result<RowMap, Trouble> {
    let mut rows = RowMap::new(alloc);
    for (key, value) in letters {
        put_letter(&mut rows, *key, *value)?;
    }
    Ok(rows)
}

/// One group, which has these rows.
pub fn group_of(alloc: Global, rows: RowMap) -> Result<Seq<RowMap>, Trouble> {
    let mut groups = Seq::new(alloc);
    match groups.push(rows) {
        Ok(()) => Ok(groups),
        Err(_) => Err(Trouble::NoMemory),
    }
}

/// Groups have the same rows as others.
///
/// # Errors
/// `Other` where they haven't.
pub fn have_rows(alloc: Global, groups: &[RowMap], wanted: &[RowMap]) -> Result<(), Trouble> {
    if groups.len() != wanted.len() {
        return Err(Trouble::Other);
    }
    for (group, rows) in groups.iter().zip(wanted) {
        if !are_same(alloc, group, rows)? {
            return Err(Trouble::Other);
        }
    }
    Ok(())
}

/// Whether two tables have the same rows.
pub fn are_same(alloc: Global, one: &RowMap, other: &RowMap) -> Result<bool, Trouble> {
    let one = one.to_rows(alloc)?;
    let other = other.to_rows(alloc)?;
    Ok(one.as_slice() == other.as_slice())
}
