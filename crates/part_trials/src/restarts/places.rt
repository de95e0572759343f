//! Where numbers and words lie in the pieces of the pair's disks.
use crate::restarts::layout::Piece;

/// The bytes of a checkpoint before its first row, and those of a row of a key and a value of one letter: the key is
/// its second byte, and the value its last.
const HEAD: usize = 2;

const ROW: usize = 12;

/// Whether a slot that is another in this byte may be as good as this one.
pub fn may_change_slot(file: u8, at: usize) -> bool {
    match file {
        0 => matches!(at, 0 | 5) || 8 <= at,
        1 => matches!(at, 0 | 2 | 3) || 8 <= at,
        _ => false,
    }
}

/// Whether a row or a record of redo that is another in this byte may be as good as this one.
pub fn may_change_row(piece: &Piece, at: usize) -> bool {
    match piece.file {
        2 => HEAD <= at && matches!((at - HEAD) % ROW, 1 | 11),
        4 => is_number_of_redo(&piece.bytes, at),
        _ => false,
    }
}

/// The place of the key of the row or the record that a byte is part of.
pub fn key_place(piece: &Piece, at: usize) -> usize {
    if piece.file == 4 {
        key_of_record(&piece.bytes, at)
    } else {
        at.saturating_sub(at.saturating_sub(HEAD) % ROW)
            .saturating_add(1)
    }
}

fn key_of_record(bytes: &[u8], at: usize) -> usize {
    let start = record_at(bytes, at);
    start.saturating_add(match bytes.get(start) {
        Some(1) => 19,
        Some(2) => 25,
        _ => 17,
    })
}

// A byte of a transaction, a fragment, an epoch or a word.
fn is_number_of_redo(bytes: &[u8], at: usize) -> bool {
    let start = record_at(bytes, at);
    let at = at.saturating_sub(start);
    let of_kind = match bytes.get(start) {
        Some(1) => matches!(at, 16 | 19 | 21),
        Some(2) => 16 <= at && at < 24 || at == 25,
        _ => at == 17,
    };
    of_kind || 3 <= at && at < 16
}

// Where the record begins that a byte is part of.
fn record_at(bytes: &[u8], at: usize) -> usize {
    let mut start = 0usize;
    for _ in 0..bytes.len() {
        let next = start.saturating_add(record_size(bytes, start));
        if at < next {
            break;
        }
        start = next;
    }
    start
}

// A record has its length behind its kind.
fn record_size(bytes: &[u8], start: usize) -> usize {
    match bytes.get(start.saturating_add(2)) {
        Some(size) => *size as usize,
        None => 0,
    }
}
