//! Rows with words as long as they may be.
use crate::restarts::trouble::Trouble;
use row_map::RowMap;
use sig_core::{Key, Value};

/// Puts 260 of them.
pub fn put_long_rows(rows: &mut RowMap) -> Result<(), Trouble> {
    for letter in b'a'..=b'z' {
        for digit in b'0'..=b'9' {
            put_long_row(rows, letter, digit)?;
        }
    }
    Ok(())
}

fn put_long_row(rows: &mut RowMap, letter: u8, digit: u8) -> Result<(), Trouble> {
    let mut key = [letter; 32];
    key[31] = digit;
    let value = Value::new(&[digit; 200])?;
    Ok(rows.insert(Key::new(&key)?, value.bytes())?)
}
