//! The bytes of a log on a disk.
ghost use Rattle.std.specs.Prelude.{◌≡◌, ◌≤◌, ◌<◌, ◌+◌, ◌-◌, ◌^◌, List, Some, IfOk, MatchResult, length};
ghost use Rattle.host_io.specs.Call.{Call};
ghost use Rattle.sig_core.specs.Ring.{file_of, place_of};
ghost use Rattle.redo_log.specs.Stored.{AreStored, IsFault, IsPiece, files_of};

use host_io::{Disk, Failed};
use sig_core::{LOG_FILE_BYTES, PIECE_BYTES, ReadFault, file_of, place_of};
use std::alloc::Global;

/// The bytes of a log between two positions, in the files of this parity. Where a file ends before
/// the place of one of them, they end before it too.
///
/// # Errors
/// `DiskFault`, `NoMemory`.
pub fn read_log<D: Disk>(
    alloc: Global,
    disk: &mut D,
    parity: u8,
    from: u64,
    to: u64,
) -> Result<Vec<u8>, ReadFault>
    requires parity { parity ≤ 1 }
    requires order { from ≤ to }
    ensures stored { (calls : List Call) → D.told disk.old ≡ Some calls → IfOk result (λ bytes. AreStored (files_of calls) parity from (to - from) bytes.items) }
    ensures most { MatchResult result (λ bytes. length bytes.items ≤ to - from) (λ fault. IsFault (D.faults disk.old) (D.faults disk.new) fault) }
    ensures unrecorded { D.told disk.new ≡ D.told disk.old }
    ensures steady { D.faults disk.old ≤ D.faults disk.new }
{
    let Ok(mut bytes) = Vec::with_capacity(alloc, (to - from) as usize) else {
        return Err(ReadFault::NoMemory);
    };
    let mut room = [0; PIECE_BYTES];
    let mut at = from;
    'pieces: while at < to {
        let len = piece_len(at, to);
        let count = read_piece(disk, parity, at, &mut room[..len], &mut bytes)?;
        at += count as u64;
        if count < len {
            return Ok(bytes);
        }
    }
    Ok(bytes)
}

// How many bytes are read at once: up to the last one, a piece's, and those of the file.
fn piece_len(at: u64, to: u64) -> usize
    requires { at < to }
    ensures some { 0 < result }
    ensures piece { result ≤ PIECE_BYTES }
    ensures file { place_of at + result ≤ LOG_FILE_BYTES }
    ensures last { at + result ≤ to }
{
    (to - at)
        .min(LOG_FILE_BYTES - place_of(at))
        .min(PIECE_BYTES as u64) as usize
}

// Reads from a position on into the room, as far as the file has bytes, and puts these behind others.
// Says how many they are.
fn read_piece<D: Disk>(
    disk: &mut D,
    parity: u8,
    at: u64,
    room: &mut [u8],
    bytes: &mut Vec<u8>,
) -> Result<usize, ReadFault>
    requires { parity ≤ 1 }
    ensures piece { (calls : List Call) → D.told disk.old ≡ Some calls → IfOk result (λ count. IsPiece (files_of calls (file_of parity at)) (place_of at) (length room.old) bytes.old.items bytes.new.items count) }
    ensures size { IfOk result (λ count. length bytes.new.items ≡ length bytes.old.items + count) }
    ensures most { MatchResult result (λ count. count ≤ length room.old) (λ fault. IsFault (D.faults disk.old) (D.faults disk.new) fault) }
    ensures unrecorded { D.told disk.new ≡ D.told disk.old }
    ensures steady { D.faults disk.old ≤ D.faults disk.new }
{
    match disk.read(file_of(parity, at), place_of(at), room) {
        Ok(count) => match bytes.extend_from_slice(&room[..count]) {
            Ok(()) => Ok(count),
            Err(_) => Err(ReadFault::NoMemory),
        },
        Err(Failed) => Err(ReadFault::DiskFault {
            count: disk.faults(),
        }),
    }
}
