//! Numbers of eight bytes in a slot, the highest byte first.
ghost use Rattle.std.specs.Prelude.{◌≡◌, ◌+◌, ◌≤◌, ◌++◌, take, length};
ghost use Rattle.std.specs.Int.{w64, to_be_bytes};
ghost use Rattle.sysfile_core.specs.Slots.{number_at};

/// Puts bytes at a place of a slot.
pub(crate) fn put(room: &mut [u8], at: usize, bytes: &[u8])
    requires { at + length bytes.now ≤ length room.old }
    ensures { take (at + length bytes.now) room.new ≡ take at room.old ++ bytes.now }
{
    room[at..at + bytes.len()].copy_from_slice(bytes);
}

/// Puts a number at a place of a slot.
pub(crate) fn put_number(room: &mut [u8], at: usize, number: u64)
    requires { at + 8 ≤ length room.old }
    ensures { take (at + 8) room.new ≡ take at room.old ++ to_be_bytes w64 number }
{
    put(room, at, &number.to_be_bytes());
}

/// The number at a place of a slot.
pub(crate) fn number_at(bytes: &[u8], at: usize) -> u64
    requires { at + 8 ≤ length bytes.now }
    ensures { result ≡ number_at at bytes.now }
{
    let (_, rest) = bytes.split_at(at);
    match rest.first_chunk::<8>() {
        Some(eight) => u64::from_be_bytes(*eight),
        None => unreachable!(),
    }
}
