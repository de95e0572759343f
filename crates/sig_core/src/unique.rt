//! Answers where values are unique.
use crate::key::Key;
use crate::op::Answer;

/// What an operation answers where values are unique: each row with a value of 1 to 31 bytes has a row
/// of the index that leads from its value back to its key.
#[derive(Clone, Copy, Debug, PartialEq, Eq)]
pub enum UAnswer {
    /// As where values aren't unique.
    Plain(Answer),
    /// The value is that of the row of this key, and nothing was written.
    Held(Key),
    /// A value of so many bytes, 32 to 200, can't be in the index, and nothing was written.
    TooLong(u8),
    /// The value that was asked for is that of the row of this key.
    KeyOf(Key),
}
