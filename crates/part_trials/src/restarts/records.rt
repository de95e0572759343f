//! The bytes of checkpoints and of redo.
use crate::restarts::rows::{key_of, value_of};
use crate::restarts::trouble::Trouble;
use lcp_store::{put_head, put_row, put_row2};
use redo_format::encode;
use sig_core::{Redo, TxId, Value};
use std::alloc::Global;

/// A checkpoint of version 2 of these rows, which are words of one letter and their epochs.
pub fn checkpoint(alloc: Global, rows: &[(u8, u8, u64)]) -> Result<Vec<u8>, Trouble> {
    let mut bytes = Vec::new(alloc);
    put_head(&mut bytes)?;
    for (key, value, epoch) in rows {
        put_letters(&mut bytes, *key, *value, *epoch)?;
    }
    Ok(bytes)
}

fn put_letters(bytes: &mut Vec<u8>, key: u8, value: u8, epoch: u64) -> Result<(), Trouble> {
    let value = value_of(value)?;
    Ok(put_row2(bytes, &key_of(key)?, epoch, value.bytes())?)
}

/// A checkpoint of version 1.
pub fn first_checkpoint(alloc: Global, rows: &[(u8, u8)]) -> Result<Vec<u8>, Trouble> {
    let mut bytes = Vec::new(alloc);
    for (key, value) in rows {
        let value = value_of(*value)?;
        put_row(&mut bytes, &key_of(*key)?, value.bytes())?;
    }
    Ok(bytes)
}

/// A transaction that was logged: its key, what it made of the row, and its epoch; none where it was
/// given up.
#[derive(Clone, Copy)]
pub struct Logged {
    pub key: u8,
    pub value: Option<u8>,
    pub epoch: Option<u64>,
}

/// The redo of transactions, which is two records for each.
pub fn redo(alloc: Global, logged: &[Logged]) -> Result<Vec<u8>, Trouble> {
    let mut bytes = Vec::new(alloc);
    let mut seq = 0u64;
    for one in logged {
        seq = seq.saturating_add(1);
        put_prepare(&mut bytes, seq, one)?;
        put_end(&mut bytes, seq, one)?;
    }
    Ok(bytes)
}

fn put_prepare(bytes: &mut Vec<u8>, seq: u64, one: &Logged) -> Result<(), Trouble> {
    let prepare = Redo::Prepare {
        tx: tx_of(seq),
        fragment: 0,
        key: key_of(one.key)?,
        image: image_of(one.value)?,
    };
    Ok(encode(&prepare, bytes)?)
}

fn put_end(bytes: &mut Vec<u8>, seq: u64, one: &Logged) -> Result<(), Trouble> {
    let tx = tx_of(seq);
    let key = key_of(one.key)?;
    let end = match one.epoch {
        Some(epoch) => Redo::Commit { tx, epoch, key },
        None => Redo::Abort { tx, key },
    };
    Ok(encode(&end, bytes)?)
}

fn tx_of(seq: u64) -> TxId {
    TxId {
        tc: 1,
        start: 0,
        seq,
    }
}

fn image_of(value: Option<u8>) -> Result<Option<Value>, Trouble> {
    match value {
        Some(letter) => Ok(Some(value_of(letter)?)),
        None => Ok(None),
    }
}
