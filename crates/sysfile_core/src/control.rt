//! Control slots.
ghost use Rattle.std.specs.Prelude.{◌≡◌, ◌<◌, ◌≤◌, IfSome, None, true, length};
ghost use Rattle.sysfile_core.specs.Found.{HasRedo};
ghost use Rattle.sysfile_core.specs.Slots.{are_positions, control_bytes, control_fault, control_of};

use crate::number::{number_at, put, put_number};
use crate::place::{OPEN, VERSION};
use sig_core::ControlSlot;

/// The bytes of a control slot.
pub const CONTROL_BYTES: usize = 56;

/// The most bytes of redo that a control slot names.
pub const REDO_BYTES: u64 = 16_777_216;

/// The bytes of a slot whose gate is open. It is read back where its file and its parity are such,
/// and its redo ends at most 16,777,216 bytes behind its start.
#[tactic(auto, unfolding(crate::specs::Slots::control_bytes))]
pub fn control_bytes(slot: &ControlSlot) -> [u8; CONTROL_BYTES]
    ensures { result ≡ control_bytes slot.now }
{
    let head = [OPEN, VERSION, slot.ckpt_file, slot.parity, 0, 0, 0, 0];
    let mut bytes = [0; CONTROL_BYTES];
    put(&mut bytes, 0, &head);
    put_number(&mut bytes, 8, slot.generation);
    put_number(&mut bytes, 16, slot.serial);
    put_number(&mut bytes, 24, slot.saved);
    put_number(&mut bytes, 32, slot.redo_start);
    put_number(&mut bytes, 40, slot.redo_end);
    put_number(&mut bytes, 48, slot.ckpt_size);
    bytes
}

/// The place of the first byte of an open slot that doesn't fit. Where the redo can't end so, it is
/// the first of its end.
#[tactic(auto, unfolding(crate::specs::Slots::control_fault))]
pub(crate) fn control_fault(bytes: &[u8]) -> Option<usize>
    requires { length bytes.now ≡ CONTROL_BYTES }
    ensures place { result ≡ control_fault bytes.now }
    ensures within { IfSome result (λ at. at < CONTROL_BYTES) }
    ensures redo { result ≡ None → HasRedo (control_of bytes.now) }
{
    if bytes[1] != VERSION {
        Some(1)
    } else if bytes[2] < 2 || 3 < bytes[2] {
        Some(2)
    } else if 1 < bytes[3] {
        Some(3)
    } else if bytes[4] != 0 {
        Some(4)
    } else if bytes[5] != 0 {
        Some(5)
    } else if bytes[6] != 0 {
        Some(6)
    } else if bytes[7] != 0 {
        Some(7)
    } else if !are_positions(number_at(bytes, 32), number_at(bytes, 40)) {
        Some(40)
    } else {
        None
    }
}

// Redo may start and end at these positions.
fn are_positions(start: u64, end: u64) -> bool
    ensures value { result ≡ are_positions start end }
    ensures order { result ≡ true → start ≤ end }
{
    start <= end && end - start <= REDO_BYTES
}

/// The slot of these bytes.
pub(crate) fn control_of(bytes: &[u8]) -> ControlSlot
    requires { length bytes.now ≡ CONTROL_BYTES }
    ensures { result ≡ control_of bytes.now }
{
    ControlSlot {
        ckpt_file: bytes[2],
        parity: bytes[3],
        generation: number_at(bytes, 8),
        serial: number_at(bytes, 16),
        saved: number_at(bytes, 24),
        redo_start: number_at(bytes, 32),
        redo_end: number_at(bytes, 40),
        ckpt_size: number_at(bytes, 48),
    }
}
