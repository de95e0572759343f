//! What the records that a journal still has tell of transactions.
ghost use Rattle.std.specs.Prelude.{◌≡◌, ◌≤◌};
ghost use Rattle.redo_log.specs.LogState.{end_of, outlet_in};
ghost use Rattle.lqh_saver.specs.Redo.{is_unfinished, noted, noting, oldest};

use redo_format::decode;
use redo_log::Log;
use sig_core::{Journal, Redo, Rows};

/// The position of the oldest record that a log still has which prepares an image on which its
/// transaction is still at work; the end where there is none. Takes no memory.
pub(crate) fn oldest<R: Rows>(rows: &R, log: &Log) -> u64
    ensures value { result ≡ oldest (R.state_of rows.now) (outlet_in log.now.log) }
    ensures most { result ≤ end_of log.now.log }
{
    // no position is behind the end of a log
    let _end = log.end();
    let mut at = log.flushed();
    let mut rest = log.bytes_from(at);
    'records: while !rest.is_empty() {
        match decode(rest) {
            Ok((redo, len)) => {
                if is_unfinished(rows, &redo) {
                    return at;
                }
                let (_, behind) = rest.split_at(len);
                at += len as u64;
                rest = behind;
            }
            Err(_) => return at,
        }
    }
    at
}

// Whether the record prepares an image on which its transaction is still at work.
fn is_unfinished<R: Rows>(rows: &R, redo: &Redo) -> bool
    ensures { result ≡ is_unfinished (R.state_of rows.now) redo.now }
{
    match redo {
        Redo::Prepare {
            tx,
            fragment: _,
            key,
            image: _,
        } => matches!(rows.record_state(*tx, key), Some(false)),
        _ => false,
    }
}

/// The greatest epoch of the commits that a log still has, and of this one. Takes no memory.
pub(crate) fn noted(floor: u64, log: &Log) -> u64
    ensures { result ≡ noted floor (outlet_in log.now.log) }
{
    let mut epoch = floor;
    let mut rest = log.bytes_from(log.flushed());
    'records: while !rest.is_empty() {
        match decode(rest) {
            Ok((redo, len)) => {
                let (_, behind) = rest.split_at(len);
                epoch = noting(epoch, &redo);
                rest = behind;
            }
            Err(_) => return epoch,
        }
    }
    epoch
}

// The greater of an epoch and that of a commit.
fn noting(epoch: u64, redo: &Redo) -> u64
    ensures { result ≡ noting epoch redo.now }
{
    match redo {
        Redo::Commit {
            tx: _,
            epoch: at,
            key: _,
        } if epoch < *at => *at,
        _ => epoch,
    }
}
