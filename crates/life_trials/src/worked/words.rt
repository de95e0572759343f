//! The words of a line.
use sig_core::HostId;
use std::str::SplitWhitespace;

/// The first word of a line, and what stands behind it.
pub fn cut_word(line: &str) -> (&str, &str) {
    match line.split_once(' ') {
        Some((first, rest)) => (first, rest),
        None => (line, ""),
    }
}

/// The next word, as a number of at most 255.
pub fn byte(words: &mut SplitWhitespace<'_>) -> Option<u8> {
    words.next()?.parse::<u8>().ok()
}

/// The next word, as a number below 2^32.
pub fn number(words: &mut SplitWhitespace<'_>) -> Option<u32> {
    words.next()?.parse::<u32>().ok()
}

/// The next word, as a number below 2^64.
pub fn large(words: &mut SplitWhitespace<'_>) -> Option<u64> {
    words.next()?.parse::<u64>().ok()
}

/// The next word, as a host.
pub fn host(words: &mut SplitWhitespace<'_>) -> Option<HostId> {
    Some(HostId(number(words)?))
}

/// The next word, as a node of so many.
pub fn node(words: &mut SplitWhitespace<'_>, nodes: u8) -> Option<u8> {
    let node = byte(words)?;
    if 0 < node && node <= nodes {
        Some(node)
    } else {
        None
    }
}

/// The number behind this word, or the default where nothing more stands there.
pub fn number_behind(words: &mut SplitWhitespace<'_>, word: &str, default: u32) -> Option<u32> {
    match words.next() {
        None => Some(default),
        Some(next) if next == word => number(words),
        Some(_) => None,
    }
}

/// That no more words stand there.
pub fn end(words: &mut SplitWhitespace<'_>) -> Option<()> {
    match words.next() {
        None => Some(()),
        Some(_) => None,
    }
}
