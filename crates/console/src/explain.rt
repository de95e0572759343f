//! Why a line isn't taken, in words.
use crate::form::{Form, Kind, form_of, operation_of};
use crate::near::nearest;
use crate::taken::may_begin;
use crate::word::{Word, shown, words_of};
use script_lang::{parse_line, read_digits};
use sig_core::{Key, Value};
use std::alloc::{AllocError, Global};

/// The most bytes of a line.
pub const LINE_BYTES: usize = 512;

/// The code of a command that the session doesn't serve.
const UNKNOWN: u8 = 1;

/// What is wrong, and the column of the word in which it is.
#[derive(Drop)]
struct Wrong {
    column: usize,
    text: String,
}

/// The code that a script's session would end with at this line, 1 to 4.
fn code_of(nodes: u8, line: &[u8]) -> u8 {
    if !may_begin(line) {
        return UNKNOWN;
    }
    match parse_line(line, false, nodes) {
        Err(fault) => fault.code(),
        Ok(_) => UNKNOWN,
    }
}

/// The line that tells why a line isn't taken in a cluster of so many nodes.
///
/// # Errors
/// Want of memory.
pub fn explanation(alloc: Global, nodes: u8, line: &[u8]) -> Result<String, AllocError> {
    let bytes = line.len();
    if bytes > LINE_BYTES {
        return format!(in alloc; "a line has at most {LINE_BYTES} bytes, and this one {bytes}\n");
    }
    let words = words_of(alloc, line)?;
    let Wrong { column, text } = wrong_in(alloc, nodes, &words)?;
    let code = code_of(nodes, line);
    format!(in alloc; "{text} (code {code}, column {column})\n")
}

fn wrong_in(alloc: Global, nodes: u8, words: &[Word<'_>]) -> Result<Wrong, AllocError> {
    let Some((first, rest)) = words.split_first() else {
        return plainly(alloc, 1, "there is no word");
    };
    if first.bytes.first() == Some(&b'@') {
        return wrong_named(alloc, nodes, *first, rest);
    }
    match form_of(first.bytes) {
        None => no_command(alloc, *first),
        Some(form) => wrong_behind(alloc, nodes, form, *first, rest),
    }
}

fn plainly(alloc: Global, column: usize, text: &str) -> Result<Wrong, AllocError> {
    Ok(Wrong {
        column,
        text: String::from_str(alloc, text)?,
    })
}

/// The column behind a word and a space.
fn column_behind(word: Word<'_>) -> usize {
    word.column
        .saturating_add(word.bytes.len())
        .saturating_add(1)
}

fn no_command(alloc: Global, word: Word<'_>) -> Result<Wrong, AllocError> {
    let name = shown(alloc, word.bytes)?;
    let text = match nearest(alloc, &name)? {
        _ if word.bytes.contains(&b'\t') => {
            format!(in alloc; "`{name}` has a tab: between words stand spaces")?
        }
        Some(near) => format!(in alloc; "`{name}`: no such command; did you mean `{near}`?")?,
        None => format!(in alloc; "`{name}`: no such command; `help` shows them all")?,
    };
    Ok(Wrong {
        column: word.column,
        text,
    })
}

/// What is wrong in a line that begins with the name of a transaction.
fn wrong_named(
    alloc: Global,
    nodes: u8,
    name: Word<'_>,
    rest: &[Word<'_>],
) -> Result<Wrong, AllocError> {
    let Some((second, rest)) = rest.split_first() else {
        let text = "an operation is wanted: get, getx, put, ins, upd or del";
        return plainly(alloc, column_behind(name), text);
    };
    let Some(form) = operation_of(second.bytes) else {
        return no_operation(alloc, *second);
    };
    if let Some(wrong) = wrong_count(alloc, form, *second, rest)? {
        return Ok(wrong);
    }
    if let Some(wrong) = wrong_name(alloc, name)? {
        return Ok(wrong);
    }
    wrong_word(alloc, nodes, form, *second, rest)
}

fn no_operation(alloc: Global, word: Word<'_>) -> Result<Wrong, AllocError> {
    let name = shown(alloc, word.bytes)?;
    let text = match form_of(word.bytes) {
        Some(form) => {
            let usage = form.usage();
            format!(in alloc; "`{name}` is no operation, and has no `@T`: `{usage}`")?
        }
        None => format!(in alloc; "`{name}`: no such operation: get, getx, put, ins, upd or del")?,
    };
    Ok(Wrong {
        column: word.column,
        text,
    })
}

/// What is wrong with a word that begins with `@`, if its rest is no name of a transaction.
fn wrong_name(alloc: Global, word: Word<'_>) -> Result<Option<Wrong>, AllocError> {
    let digits = match word.bytes {
        [_, digits @ ..] => digits,
        [] => word.bytes,
    };
    if is_number(digits, 65_535) {
        return Ok(None);
    }
    let name = shown(alloc, word.bytes)?;
    Ok(Some(Wrong {
        column: word.column,
        text: format!(in alloc; "`{name}` is no transaction: `@` and a number from 1 to 65535")?,
    }))
}

fn wrong_behind(
    alloc: Global,
    nodes: u8,
    form: Form,
    first: Word<'_>,
    rest: &[Word<'_>],
) -> Result<Wrong, AllocError> {
    if let Some(wrong) = wrong_count(alloc, form, first, rest)? {
        return Ok(wrong);
    }
    wrong_word(alloc, nodes, form, first, rest)
}

/// What is wrong with the number of words behind a command's first, if it is wrong.
fn wrong_count(
    alloc: Global,
    form: Form,
    first: Word<'_>,
    rest: &[Word<'_>],
) -> Result<Option<Wrong>, AllocError> {
    let usage = form.usage();
    if let Some(surplus) = rest.get(form.kinds().len()) {
        let name = shown(alloc, surplus.bytes)?;
        return Ok(Some(Wrong {
            column: surplus.column,
            text: format!(in alloc; "`{name}` is a word too many: `{usage}`")?,
        }));
    }
    if rest.len() >= form.least() {
        return Ok(None);
    }
    let wanted = match form.kinds().get(rest.len()) {
        Some(kind) => kind_wanted(*kind),
        None => "a word",
    };
    let last = match rest.last() {
        Some(last) => *last,
        None => first,
    };
    Ok(Some(Wrong {
        column: column_behind(last),
        text: format!(in alloc; "{wanted} is wanted: `{usage}`")?,
    }))
}

/// What is wrong with the first word that isn't what it stands for.
fn wrong_word(
    alloc: Global,
    nodes: u8,
    form: Form,
    first: Word<'_>,
    rest: &[Word<'_>],
) -> Result<Wrong, AllocError> {
    for (word, kind) in rest.iter().zip(form.kinds()) {
        if !is_of(nodes, *kind, word.bytes) {
            return Ok(Wrong {
                column: word.column,
                text: not_of(alloc, nodes, *kind, word.bytes)?,
            });
        }
    }
    plainly(alloc, first.column, "the session doesn't serve this line")
}

fn kind_wanted(kind: Kind) -> &'static str {
    match kind {
        Kind::Key => "a key",
        Kind::Value => "a value",
        Kind::Name => "the number of a transaction",
        Kind::Node => "a node",
        Kind::Rounds => "a number of rounds",
    }
}

/// Whether a word is a decimal number from 1 to `most`, without leading zeros.
fn is_number(word: &[u8], most: u32) -> bool {
    !word.is_empty() && word.first() != Some(&b'0') && read_digits(word, most).is_some()
}

fn is_of(nodes: u8, kind: Kind, word: &[u8]) -> bool {
    match kind {
        Kind::Key => Key::new(word).is_ok(),
        Kind::Value => Value::new(word).is_ok(),
        Kind::Name => is_number(word, 65_535),
        Kind::Node => is_number(word, u32::from(nodes)),
        Kind::Rounds => is_number(word, 16),
    }
}

/// Why a word isn't of a kind.
fn not_of(alloc: Global, nodes: u8, kind: Kind, word: &[u8]) -> Result<String, AllocError> {
    let name = shown(alloc, word)?;
    let zeros = no_zeros(word);
    match kind {
        Kind::Key => { format!(in alloc; "`{name}` is no key: 1 to 32 printed ASCII characters") }
        Kind::Value => {
            format!(in alloc; "`{name}` is no value: up to 200 printed ASCII characters")
        }
        Kind::Name => {
            format!(in alloc; "`{name}` is no transaction's number: from 1 to 65535{zeros}")
        }
        Kind::Node => format!(in alloc; "`{name}` is no node: from 1 to {nodes}{zeros}"),
        Kind::Rounds => format!(in alloc; "`{name}` is no number of rounds: from 1 to 16{zeros}"),
    }
}

/// What is told besides of a number that begins with a zero, and isn't zero.
fn no_zeros(word: &[u8]) -> &'static str {
    match word {
        [b'0', _, ..] => ", no zero in front",
        _ => "",
    }
}
