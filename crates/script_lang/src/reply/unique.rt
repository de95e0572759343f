//! What an operation answers where values are unique, in words.
ghost use Rattle.std.specs.Prelude.{◌≡◌, ◌++◌, OnOk};
ghost use Rattle.script_lang.specs.UniqueText.{unique_words};

use crate::reply::answer::add_answer;
use crate::reply::words::add;
use sig_core::{NoMemory, UAnswer};
use std::alloc::Global;

/// Adds the words of an answer to a line.
///
/// # Errors
/// `NoMemory`.
pub fn add_unique(alloc: Global, answer: &UAnswer, line: &mut Vec<u8>) -> Result<(), NoMemory>
    ensures { OnOk result (line.new.items ≡ line.old.items ++ unique_words answer.now) }
{
    match answer {
        UAnswer::Plain(answer) => add_answer(answer, line),
        UAnswer::Held(key) => add_behind("unique held by ", key.bytes(), line),
        UAnswer::TooLong(len) => add(line, &format!(in alloc; "unique too long {len}")?),
        UAnswer::KeyOf(key) => add_behind("key ", key.bytes(), line),
    }
}

// Adds a key behind words.
fn add_behind(words: &str, key: &[u8], line: &mut Vec<u8>) -> Result<(), NoMemory>
    ensures { OnOk result (line.new.items ≡ line.old.items ++ (words.now ++ key.now)) }
{
    add(line, words)?;
    line.extend_from_slice(key)?;
    Ok(())
}
