//! What a line means.
ghost use Rattle.std.specs.Prelude.{◌≡◌, ◌≤◌, IfOk, MatchOption, None, Some};
ghost use Rattle.script_lang.specs.Line.{bare, begin, command_of, cut, first_word, kill_after, named, one_number};
ghost use Rattle.script_lang.specs.Line.{parsed_line, parsed_words, plain, with_keyword, without_return};
ghost use Rattle.script_lang.specs.Words.{words};

use crate::command::Command;
use crate::fault::LineFault;
use crate::keyword::{Keyword, OpKind, is_in, keyword_of, operation_of};
use crate::number::read_number;
use crate::operation::{operands, operate};
use crate::words::{next_word, no_words, one_or_two, one_word, two_words};

/// The greatest name of a transaction.
const NAMES: u32 = 65_535;
/// The most rounds of a `tick`.
const ROUNDS: u32 = 16;
/// The most signals after which a batch stops a node.
const SIGNALS: u32 = 100_000;

/// What a line means, in a batch or outside, for a cluster of `nodes` nodes, 1 to 8. The line comes
/// without its newline, and with the carriage return that may stand before it. An empty line and
/// one whose first word begins with `#` mean nothing.
///
/// # Errors
/// The first that holds: `UnknownCommand` where the first word, or the one behind a transaction's
/// name, is no command here; `Arity` for too few or too many words; then word by word `BadNumber`
/// or `BadWord`.
pub fn parse_line(line: &[u8], batch: bool, nodes: u8) -> Result<Option<Command>, LineFault>
    ensures { result ≡ parsed_line batch nodes line.now }
{
    parse_words(without_return(line), batch, nodes)
}

/// The first word of a line, which may have a carriage return at its end.
pub fn first_word(line: &[u8]) -> Option<&[u8]>
    ensures { MatchOption result (first_word line.now ≡ None) (λ word. first_word line.now ≡ Some word.now) }
{
    let (first, _) = next_word(without_return(line))?;
    Some(first)
}

fn without_return(line: &[u8]) -> &[u8]
    ensures { result.now ≡ without_return line.now }
{
    match line {
        [front @ .., b'\r'] => front,
        _ => line,
    }
}

fn parse_words(line: &[u8], batch: bool, nodes: u8) -> Result<Option<Command>, LineFault>
    ensures { result ≡ parsed_words batch nodes (words line.now) }
{
    let Some((first, rest)) = next_word(line) else {
        return Ok(None);
    };
    if first.first() == Some(&b'#') {
        return Ok(None);
    }
    match parse_command(first, rest, batch, nodes) {
        Ok(command) => Ok(Some(command)),
        Err(fault) => Err(fault),
    }
}

fn parse_command(first: &[u8], rest: &[u8], batch: bool, nodes: u8) -> Result<Command, LineFault>
    ensures { result ≡ command_of batch nodes first.now (words rest.now) }
{
    if first.first() == Some(&b'@') {
        return parse_named(&first[1..], rest);
    }
    let Some(keyword) = keyword_of(first) else {
        return Err(LineFault::UnknownCommand);
    };
    if !is_in(batch, keyword) {
        return Err(LineFault::UnknownCommand);
    }
    parse_rest(keyword, rest, batch, nodes)
}

/// An operation of the transaction whose name the digits tell.
fn parse_named(digits: &[u8], rest: &[u8]) -> Result<Command, LineFault>
    ensures { result ≡ named digits.now (words rest.now) }
{
    let Some((first, rest)) = next_word(rest) else {
        return Err(LineFault::Arity);
    };
    let Some(kind) = operation_of(first) else {
        return Err(LineFault::UnknownCommand);
    };
    let Some((key, value)) = operands(kind, rest) else {
        return Err(LineFault::Arity);
    };
    let Some(name) = read_number(digits, 1, NAMES) else {
        return Err(LineFault::BadNumber);
    };
    operate(Some(name as u16), kind, key, value)
}

/// An operation that is a transaction of its own.
fn parse_plain(kind: OpKind, rest: &[u8]) -> Result<Command, LineFault>
    ensures { result ≡ plain kind (words rest.now) }
{
    let Some((key, value)) = operands(kind, rest) else {
        return Err(LineFault::Arity);
    };
    operate(None, kind, key, value)
}

/// What stands behind the first word.
fn parse_rest(keyword: Keyword, rest: &[u8], batch: bool, nodes: u8) -> Result<Command, LineFault>
    ensures { result ≡ with_keyword batch nodes keyword (words rest.now) }
{
    let most = u32::from(nodes);
    match keyword {
        Keyword::Operation(kind) => parse_plain(kind, rest),
        Keyword::Begin => parse_begin(rest, nodes),
        Keyword::Commit => Ok(Command::Commit {
            name: one_number(rest, 1, NAMES)? as u16,
        }),
        Keyword::Abort => Ok(Command::Abort {
            name: one_number(rest, 1, NAMES)? as u16,
        }),
        Keyword::Batch => bare(Command::Batch, rest),
        Keyword::End => bare(Command::End, rest),
        Keyword::Kill if batch => parse_kill_after(rest, nodes),
        Keyword::Kill => Ok(Command::Kill {
            node: one_number(rest, 1, most)? as u8,
        }),
        Keyword::Cut => parse_cut(rest, nodes),
        Keyword::Tick => Ok(Command::Tick {
            rounds: one_number(rest, 1, ROUNDS)? as u8,
        }),
        Keyword::Micro => bare(Command::Micro, rest),
        Keyword::Gcp => bare(Command::Gcp, rest),
        Keyword::Lcp => bare(Command::Lcp, rest),
        Keyword::Start => Ok(Command::Start {
            node: one_number(rest, 1, most)? as u8,
        }),
        Keyword::Crash => bare(Command::Crash, rest),
        Keyword::Restart => bare(Command::Restart, rest),
        Keyword::Rows => Ok(Command::Rows {
            node: one_number(rest, 1, most)? as u8,
        }),
        Keyword::Digest => Ok(Command::Digest {
            node: one_number(rest, 1, most)? as u8,
        }),
        Keyword::View => bare(Command::View, rest),
        Keyword::Quit => bare(Command::Quit, rest),
    }
}

/// A command that has no more words.
fn bare(command: Command, rest: &[u8]) -> Result<Command, LineFault>
    ensures { result ≡ bare command (words rest.now) }
{
    if no_words(rest) {
        Ok(command)
    } else {
        Err(LineFault::Arity)
    }
}

/// The one number that there is.
fn one_number(rest: &[u8], least: u32, most: u32) -> Result<u32, LineFault>
    ensures told { result ≡ one_number least most (words rest.now) }
    ensures bounds { IfOk result (λ value. (least ≤ value) × (value ≤ most)) }
{
    let Some(word) = one_word(rest) else {
        return Err(LineFault::Arity);
    };
    match read_number(word, least, most) {
        Some(value) => Ok(value),
        None => Err(LineFault::BadNumber),
    }
}

fn parse_begin(rest: &[u8], nodes: u8) -> Result<Command, LineFault>
    ensures { result ≡ begin nodes (words rest.now) }
{
    let Some((name, node)) = one_or_two(rest) else {
        return Err(LineFault::Arity);
    };
    let Some(name) = read_number(name, 1, NAMES) else {
        return Err(LineFault::BadNumber);
    };
    let name = name as u16;
    if node.is_empty() {
        return Ok(Command::Begin { name, node: None });
    }
    match read_number(node, 1, u32::from(nodes)) {
        Some(node) => Ok(Command::Begin {
            name,
            node: Some(node as u8),
        }),
        None => Err(LineFault::BadNumber),
    }
}

fn parse_cut(rest: &[u8], nodes: u8) -> Result<Command, LineFault>
    ensures { result ≡ cut nodes (words rest.now) }
{
    let Some((one, other)) = two_words(rest) else {
        return Err(LineFault::Arity);
    };
    let Some(one) = read_number(one, 1, u32::from(nodes)) else {
        return Err(LineFault::BadNumber);
    };
    match read_number(other, 1, u32::from(nodes)) {
        Some(other) => Ok(Command::Cut {
            one: one as u8,
            other: other as u8,
        }),
        None => Err(LineFault::BadNumber),
    }
}

/// `N after R`.
fn parse_kill_after(rest: &[u8], nodes: u8) -> Result<Command, LineFault>
    ensures { result ≡ kill_after nodes (words rest.now) }
{
    let Some((node, rest)) = next_word(rest) else {
        return Err(LineFault::Arity);
    };
    let Some((word, after)) = two_words(rest) else {
        return Err(LineFault::Arity);
    };
    let Some(node) = read_number(node, 1, u32::from(nodes)) else {
        return Err(LineFault::BadNumber);
    };
    if word != b"after".as_slice() {
        return Err(LineFault::BadWord);
    }
    match read_number(after, 0, SIGNALS) {
        Some(after) => Ok(Command::KillAfter {
            node: node as u8,
            after,
        }),
        None => Err(LineFault::BadNumber),
    }
}
