//! What a call on a disk may name.
ghost use Rattle.std.specs.Prelude.{◌≡◌, true};
ghost use Rattle.host_io.specs.Image.{IsPlace, has_place};

use crate::limits::{FILE_SIZE, FILES};

/// Whether a disk has a file, and places in it up to this end.
pub fn has_place(file: u8, end: u64) -> bool
    ensures value { result ≡ has_place file end }
    ensures place { result ≡ true → IsPlace file end }
{
    file < FILES && end <= FILE_SIZE
}
