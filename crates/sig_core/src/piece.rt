//! Bytes to write.
use crate::seq::Seq;

/// The bytes that a piece has at most.
pub const PIECE_BYTES: usize = 32_768;

/// Bytes to write at a place of a file.
#[derive(Drop)]
pub struct Piece {
    pub file: u8,
    pub at: u64,
    pub bytes: Seq<u8>,
}
