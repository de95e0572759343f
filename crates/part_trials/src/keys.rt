//! Keys by their numbers.
use crate::stopped::Stopped;
use sig_core::Key;

/// The key with this number, of nine bytes: a letter, and the last eight digits.
///
/// # Errors
/// None comes: the bytes are a key's.
pub fn key_of(number: u64) -> Result<Key, Stopped> {
    let mut word = [b'k'; 9];
    let mut left = number;
    for at in 0..8 {
        word[8 - at] = b'0' + (left % 10) as u8;
        left /= 10;
    }
    Ok(Key::new(&word)?)
}
