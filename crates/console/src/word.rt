//! The words of a line, and where they stand.
use std::alloc::{AllocError, Global};

/// A word of a line, and the column of its first byte, from 1.
#[derive(Clone, Copy)]
pub struct Word<'a> {
    pub column: usize,
    pub bytes: &'a [u8],
}

/// A line without the carriage return at its end.
pub fn without_return(line: &[u8]) -> &[u8] {
    match line {
        [front @ .., b'\r'] => front,
        _ => line,
    }
}

/// What stands before the first space, and behind it.
pub fn cut_word(bytes: &[u8]) -> (&[u8], &[u8]) {
    let Some(at) = bytes.iter().position(|byte| *byte == b' ') else {
        return (bytes, &[]);
    };
    match bytes.split_at_checked(at) {
        Some((word, [_, rest @ ..])) => (word, rest),
        _ => (bytes, &[]),
    }
}

/// The words of a line.
///
/// # Errors
/// Want of memory.
pub fn words_of<'a>(alloc: Global, line: &'a [u8]) -> Result<Vec<Word<'a>>, AllocError> {
    let mut words = Vec::new(alloc);
    let mut column: usize = 1;
    for bytes in without_return(line).split(|byte| *byte == b' ') {
        if !bytes.is_empty() {
            words.push(Word { column, bytes })?;
        }
        column = column.saturating_add(bytes.len()).saturating_add(1);
    }
    Ok(words)
}

/// How many characters of a word are shown.
const SHOWN: usize = 40;

/// A word as text, with a question mark for each byte that is no printed character. Of a long word the
/// front, and two dots.
///
/// # Errors
/// Want of memory.
pub fn shown(alloc: Global, bytes: &[u8]) -> Result<String, AllocError> {
    let mut text = String::new(alloc);
    for byte in bytes.iter().take(SHOWN) {
        let printed = if byte.is_ascii_graphic() {
            char::from(*byte)
        } else {
            '?'
        };
        text.push(printed)?;
    }
    if bytes.len() > SHOWN {
        text.push_str("..")?;
    }
    Ok(text)
}
