//! The ring of files that a journal lies in.
ghost use Rattle.std.specs.Prelude.{◌≡◌, ◌≤◌, ◌<◌};
ghost use Rattle.sig_core.specs.Ring.{file_of, place_of};

/// The bytes that each file of a journal has, 4 MiB.
pub const LOG_FILE_BYTES: u64 = 4_194_304;

/// How many files a journal has.
pub const LOG_FILES: u64 = 4;

/// The first file of the journal of parity 0. Behind its four come those of parity 1.
pub const FIRST_FILE: u64 = 4;

/// The file that a position lies in: 4 to 7 for parity 0, 8 to 11 for parity 1.
pub fn file_of(parity: u8, position: u64) -> u8
    requires { parity ≤ 1 }
    ensures { result ≡ file_of parity position }
{
    (FIRST_FILE + LOG_FILES * parity as u64 + position / LOG_FILE_BYTES % LOG_FILES) as u8
}

/// The place of a position in its file.
pub fn place_of(position: u64) -> u64
    ensures value { result ≡ place_of position }
    ensures within { result < LOG_FILE_BYTES }
{
    position % LOG_FILE_BYTES
}
