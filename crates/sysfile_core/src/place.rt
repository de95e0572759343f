//! Where slots lie.
ghost use Rattle.std.specs.Prelude.{◌≡◌, ◌≤◌, ◌*◌};
ghost use Rattle.sysfile_core.specs.Places.{place_of};

/// The file of the system slots.
pub const SYSTEM_FILE: u8 = 0;

/// The file of the control slots.
pub const CONTROL_FILE: u8 = 1;

/// The gate byte of an open slot. With any other value it is closed.
pub const OPEN: u8 = 0x4e;

/// The gate byte by which a slot is closed.
pub const CLOSED: u8 = 0;

/// The version of the bytes of a slot.
pub const VERSION: u8 = 1;

/// How far one slot of a file lies behind the other.
pub const SLOT_SPACE: u64 = 4_096;

/// The place of a slot of a file: slot 0 lies at 0, slot 1 at 4,096, and slot 2, which only the control file has, at
/// 8,192.
pub fn place_of(which: u8) -> u64
    requires { which ≤ 2 }
    ensures value { result ≡ place_of which }
    ensures within { result ≤ 2 * SLOT_SPACE }
{
    which as u64 * SLOT_SPACE
}
