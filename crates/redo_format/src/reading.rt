//! Reading the parts of a record from the front of some bytes. A fault is how many bytes are left
//! where the first stands that doesn't fit.
ghost use Rattle.std.specs.Prelude.{◌≡◌, ◌≤◌, ◌-◌, position, take, length, IfOk, None};
ghost use Rattle.std.specs.Int.{w32, w64};
ghost use Rattle.sig_core.specs.Word.{is_unprintable};
ghost use Rattle.redo_format.specs.Reading.{Gives, abort_at, byte_at, commit_at, head_at, least_flag, most_flag};
ghost use Rattle.redo_format.specs.Reading.{number_at, prepare_at, record_at, run_at, transaction_at, word_at};
ghost use Rattle.redo_format.specs.Lent.{redo_of};

use crate::lent::{LentImage, LentRedo};
use sig_core::{Key, TxId, first_unprintable};

/// A record of any kind.
#[tactic(auto, unfolding(crate::specs::Reading::record_at))]
pub fn record_at(bytes: &[u8]) -> Result<(LentRedo<'_>, &[u8]), usize>
    ensures { Gives (λ x. (redo_of x.0, x.1.now)) result (record_at bytes.now) }
{
    let (kind, rest) = byte_at(bytes, 1, 3)?;
    match kind {
        1 => prepare_at(rest),
        2 => commit_at(rest),
        _ => abort_at(rest),
    }
}

#[tactic(auto, unfolding(crate::specs::Reading::prepare_at, crate::specs::Reading::image_at))]
fn prepare_at(bytes: &[u8]) -> Result<(LentRedo<'_>, &[u8]), usize>
    ensures { Gives (λ x. (redo_of x.0, x.1.now)) result (prepare_at bytes.now) }
{
    let (size, tx, rest) = head_at(bytes, 20, 252)?;
    let (fragment, rest) = byte_at(rest, 0, 31)?;
    let (flag, rest) = byte_at(rest, least_flag(size), most_flag(size))?;
    if flag == 0 {
        let (key, rest) = word_at(rest, size - 19, size - 19)?;
        let redo = LentRedo::Prepare {
            tx,
            fragment,
            key: key_of(key),
            image: None,
        };
        return Ok((redo, rest));
    }
    let (key, rest) = word_at(rest, size.saturating_sub(220).max(1), (size - 20).min(32))?;
    let len = size - 20 - key.len() as u8;
    let (value, rest) = word_at(rest, len, len)?;
    let redo = LentRedo::Prepare {
        tx,
        fragment,
        key: key_of(key),
        image: Some(LentImage::new(value)),
    };
    Ok((redo, rest))
}

#[tactic(auto, unfolding(crate::specs::Reading::commit_at))]
fn commit_at(bytes: &[u8]) -> Result<(LentRedo<'_>, &[u8]), usize>
    ensures { Gives (λ x. (redo_of x.0, x.1.now)) result (commit_at bytes.now) }
{
    let (size, tx, rest) = head_at(bytes, 26, 57)?;
    let (epoch, rest) = u64_at(rest)?;
    let (key, rest) = word_at(rest, size - 25, size - 25)?;
    let redo = LentRedo::Commit {
        tx,
        epoch,
        key: key_of(key),
    };
    Ok((redo, rest))
}

#[tactic(auto, unfolding(crate::specs::Reading::abort_at))]
fn abort_at(bytes: &[u8]) -> Result<(LentRedo<'_>, &[u8]), usize>
    ensures { Gives (λ x. (redo_of x.0, x.1.now)) result (abort_at bytes.now) }
{
    let (size, tx, rest) = head_at(bytes, 18, 49)?;
    let (key, rest) = word_at(rest, size - 17, size - 17)?;
    let redo = LentRedo::Abort {
        tx,
        key: key_of(key),
    };
    Ok((redo, rest))
}

/// Behind the kind: the length of the whole, from `least` to `most`, and the transaction.
#[inline(always)]
#[tactic(auto, unfolding(crate::specs::Reading::head_at))]
fn head_at(bytes: &[u8], least: u8, most: u8) -> Result<(u8, TxId, &[u8]), usize>
    ensures read { Gives (λ x. ((x.0, x.1), x.2.now)) result (head_at least most bytes.now) }
    ensures range { IfOk result (λ x. (least ≤ x.0) × (x.0 ≤ most)) }
{
    let (_, rest) = byte_at(bytes, 0, 0)?;
    let (size, rest) = byte_at(rest, least, most)?;
    let (tx, rest) = transaction_at(rest)?;
    Ok((size, tx, rest))
}

#[inline(always)]
#[tactic(auto, unfolding(crate::specs::Reading::transaction_at))]
fn transaction_at(bytes: &[u8]) -> Result<(TxId, &[u8]), usize>
    ensures { Gives (λ x. (x.0, x.1.now)) result (transaction_at bytes.now) }
{
    let (tc, rest) = byte_at(bytes, 1, 8)?;
    let (start, rest) = u32_at(rest)?;
    let (seq, rest) = u64_at(rest)?;
    Ok((TxId { tc, start, seq }, rest))
}

// The least flag of a record of this length: only one of up to 51 bytes may be without an image.
fn least_flag(size: u8) -> u8
    ensures { result ≡ least_flag size }
{
    if size > 51 { 1 } else { 0 }
}

// The greatest flag of a record of this length: only one of 21 bytes and more may have an image.
fn most_flag(size: u8) -> u8
    ensures { result ≡ most_flag size }
{
    if size < 21 { 0 } else { 1 }
}

/// A word of `least` to `most` bytes, behind its length.
#[inline(always)]
#[tactic(auto, unfolding(crate::specs::Reading::word_at))]
fn word_at(bytes: &[u8], least: u8, most: u8) -> Result<(&[u8], &[u8]), usize>
    ensures read { Gives (λ x. (x.0.now, x.1.now)) result (word_at least most bytes.now) }
    ensures least { IfOk result (λ x. least ≤ length x.0.now) }
    ensures most { IfOk result (λ x. length x.0.now ≤ most) }
    ensures printable { IfOk result (λ x. position is_unprintable x.0.now ≡ None) }
{
    let (len, rest) = byte_at(bytes, least, most)?;
    run_at(rest, len as usize)
}

#[inline(always)]
fn key_of(word: &[u8]) -> Key
    requires least { 1 ≤ length word.now }
    requires most { length word.now ≤ 32 }
    requires printable { position is_unprintable word.now ≡ None }
    ensures { result ≡ word.now }
{
    match Key::new(word) {
        Ok(key) => key,
        Err(_) => unreachable!(),
    }
}

/// So many printable bytes.
#[inline(always)]
#[tactic(auto, unfolding(crate::specs::Reading::run_at))]
fn run_at(bytes: &[u8], len: usize) -> Result<(&[u8], &[u8]), usize>
    ensures read { Gives (λ x. (x.0.now, x.1.now)) result (run_at len bytes.now) }
    ensures len { IfOk result (λ x. length x.0.now ≡ len) }
    ensures printable { IfOk result (λ x. position is_unprintable x.0.now ≡ None) }
{
    if bytes.len() < len {
        return match first_unprintable(bytes) {
            Some(at) => Err(bytes.len() - at),
            None => Err(0),
        };
    }
    let (word, rest) = bytes.split_at(len);
    match first_unprintable(word) {
        Some(at) => Err(bytes.len() - at),
        None => Ok((word, rest)),
    }
}

/// A byte from `least` to `most`.
#[inline(always)]
fn byte_at(bytes: &[u8], least: u8, most: u8) -> Result<(u8, &[u8]), usize>
    ensures read { Gives (λ x. (x.0, x.1.now)) result (byte_at least most bytes.now) }
    ensures range { IfOk result (λ x. (least ≤ x.0) × (x.0 ≤ most)) }
{
    match bytes {
        [] => Err(0),
        [byte, rest @ ..] => {
            if *byte < least || most < *byte {
                return Err(bytes.len());
            }
            Ok((*byte, rest))
        }
    }
}

#[inline(always)]
fn u32_at(bytes: &[u8]) -> Result<(u32, &[u8]), usize>
    ensures { Gives (λ x. (x.0, x.1.now)) result (number_at w32 bytes.now) }
{
    if bytes.len() < 4 {
        return Err(0);
    }
    let (front, rest) = bytes.split_at(4);
    let number = u32::from_be_bytes([front[0], front[1], front[2], front[3]]);
    Ok((number, rest))
}

#[inline(always)]
fn u64_at(bytes: &[u8]) -> Result<(u64, &[u8]), usize>
    ensures { Gives (λ x. (x.0, x.1.now)) result (number_at w64 bytes.now) }
{
    if bytes.len() < 8 {
        return Err(0);
    }
    let (front, rest) = bytes.split_at(8);
    let number = u64::from_be_bytes([
        front[0], front[1], front[2], front[3], front[4], front[5], front[6], front[7],
    ]);
    Ok((number, rest))
}
