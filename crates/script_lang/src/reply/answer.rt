//! What an operation answers, in words.
ghost use Rattle.std.specs.Prelude.{◌≡◌, ◌++◌, OnOk, codes};
ghost use Rattle.script_lang.specs.AnswerText.{answer_words};

use crate::reply::words::add;
use sig_core::{Answer, NoMemory};

/// Adds the words of an answer to a line.
///
/// # Errors
/// `NoMemory`.
pub fn add_answer(answer: &Answer, line: &mut Vec<u8>) -> Result<(), NoMemory>
    ensures { OnOk result (line.new.items ≡ line.old.items ++ answer_words answer.now) }
{
    match answer {
        Answer::Done => add(line, "ok"),
        Answer::Found(value) => add_value(value.bytes(), line),
        Answer::Missing => add(line, "none"),
        Answer::E626 => add(line, "error 626 tuple did not exist"),
        Answer::E630 => add(line, "error 630 tuple already existed"),
    }
}

fn add_value(value: &[u8], line: &mut Vec<u8>) -> Result<(), NoMemory>
    ensures { OnOk result (line.new.items ≡ line.old.items ++ (codes "value " ++ value.now)) }
{
    line.extend_from_slice(b"value ")?;
    line.extend_from_slice(value)?;
    Ok(())
}
