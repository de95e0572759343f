//! The numbers of the cluster that the words behind the program's name ask for.
use crate::screen::Numbers;
use script_lang::read_digits;

/// The numbers of nodes, replicas and fragments that the words ask for. Where the session refuses
/// the words, it reads nothing, and these numbers say nothing.
pub fn numbers_of(words: &[String]) -> Numbers {
    Numbers {
        nodes: number_of(words, "--nodes", 2),
        replicas: number_of(words, "--replicas", 2),
        fragments: number_of(words, "--fragments", 4),
    }
}

/// The number that stands behind an option, as a word of its own or behind `=`.
fn number_of(words: &[String], option: &str, default: u8) -> u8 {
    let mut is_next = false;
    for word in words {
        if is_next {
            return number(word.as_str(), default);
        }
        match word.as_str().strip_prefix(option) {
            Some("") => is_next = true,
            Some(value) => {
                if let Some(value) = value.strip_prefix("=") {
                    return number(value, default);
                }
            }
            None => {}
        }
    }
    default
}

fn number(digits: &str, default: u8) -> u8 {
    match read_digits(digits.as_bytes(), 255) {
        Some(value) => value as u8,
        None => default,
    }
}
