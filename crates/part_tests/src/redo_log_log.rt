use crate::wrong::Wrong;
use redo_log::Log;
use sig_core::{Journal, Key, NoMemory, Redo, TxId, Value};

// A prepare of transaction (1, 0, 1) of this key and value, and its commit in epoch 1.
pub(crate) fn pair(key: Key, value: Value) -> (Redo, Redo) {
    let tx = TxId {
        tc: 1,
        start: 0,
        seq: 1,
    };
    let prepare = Redo::Prepare {
        tx,
        fragment: 1,
        key,
        image: Some(value),
    };
    (prepare, Redo::Commit { tx, epoch: 1, key })
}

// Reserves and appends the two.
pub(crate) fn put(log: &mut Log, prepare: &Redo, commit: &Redo) -> bool {
    let need = prepare.size() + commit.size();
    match log.reserve(need) {
        Ok(()) => {
            log.append(prepare);
            log.append(commit);
            true
        }
        Err(_) => false,
    }
}

// The file and the place of the next piece, and how many bytes it has.
fn next_piece(log: &mut Log) -> Result<Option<(u8, u64, usize)>, NoMemory> {
    Ok(match log.flush_step()? {
        Some(piece) => Some((piece.file, piece.at, piece.bytes.len())),
        None => None,
    })
}

// How many bytes are used once a log that has no piece left is cut at this place; nothing where it can't be.
fn used_from(log: &mut Log, at: u64) -> Result<Option<u64>, NoMemory> {
    if log.flush_step()?.is_some() {
        return Ok(None);
    }
    let end = log.end();
    if at > end || end - at > log.used() {
        return Ok(None);
    }
    log.cut_to(at);
    Ok(Some(log.used()))
}

#[test]
fn a_pair_is_given_out_at_its_place(rt: HostRuntime) -> Result<(), Wrong> {
    let mut log = Log::new(rt.alloc(), 3, 1)?;
    log.make_room(48)?;
    let (prepare, commit) = pair(Key::new(b"a")?, Value::new(b"1")?);
    assert!(rt; put(&mut log, &prepare, &commit));
    assert_eq!(rt; (log.end(), log.used()), (48, 48));
    assert_eq!(rt; next_piece(&mut log)?, Some((8, 0, 48)));
    assert_eq!(rt; next_piece(&mut log)?, None);
    assert_eq!(rt; used_from(&mut log, 22)?, Some(26));
    assert_eq!(rt; (log.generation(), log.parity()), (3, 1));
    Ok(())
}

// Appends 10,000 pairs.
fn put_many(log: &mut Log, prepare: &Redo, commit: &Redo) -> bool {
    for _ in 0..10_000 {
        if !put(log, prepare, commit) {
            return false;
        }
    }
    true
}

// Takes the next piece; where there is none the log is cut at its end. Says whether there was one; nothing
// where there was no memory.
fn take_next(log: &mut Log) -> Option<bool> {
    match log.flush_step() {
        Ok(Some(_)) => Some(true),
        Ok(None) => {
            let end = log.end();
            log.cut_to(end);
            Some(false)
        }
        Err(_) => None,
    }
}

// Appends 10,000 pairs, takes all pieces, and cuts the log at its end.
fn round(log: &mut Log, prepare: &Redo, commit: &Redo) -> bool {
    if !put_many(log, prepare, commit) {
        return false;
    }
    for _ in 0..1_000 {
        match take_next(log) {
            Some(true) => {}
            Some(false) => return true,
            None => return false,
        }
    }
    false
}

#[test]
fn seven_rounds_go_round_the_ring(rt: HostRuntime) -> Result<(), Wrong> {
    let mut log = Log::new(rt.alloc(), 1, 0)?;
    let (prepare, commit) = pair(Key::new(&[b'k'; 32])?, Value::new(&[b'v'; 200])?);
    for _ in 0..7 {
        assert!(rt; round(&mut log, &prepare, &commit));
    }
    assert_eq!(rt; (log.end(), log.used()), (21_630_000, 0));
    assert!(rt; put(&mut log, &prepare, &commit));
    assert_eq!(rt; next_piece(&mut log)?, Some((5, 658_480, 309)));
    Ok(())
}
