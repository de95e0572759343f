//! How much a disk has.

/// How many files a disk has: files 0 to 15.
pub const FILES: u8 = 16;

/// The bytes that a file has at most: 2^32. Places of a file are below it.
pub const FILE_SIZE: u64 = 1 << 32;
