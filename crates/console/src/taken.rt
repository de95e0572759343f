//! Whether a line is one that the session takes.
ghost use Rattle.std.specs.Prelude.{◌≡◌, false};
ghost use Rattle.script_lang.specs.Line.{first_word, parsed_line};
ghost use Rattle.console.specs.Taken.{asks, is_served, is_taken, may_begin};

use crate::explain::LINE_BYTES;
use crate::form::form_of;
use script_lang::{Command, first_word, parse_line};

/// Whether a line, without its newline, asks for a command that the session of a cluster of so many
/// nodes serves.
pub fn is_taken(nodes: u8, line: &[u8]) -> bool
    ensures { result ≡ is_taken nodes line.now }
{
    line.len() <= LINE_BYTES && may_begin(line) && asks(nodes, line)
}

/// Whether a line begins with the name of a transaction, or a command that the session serves.
pub fn may_begin(line: &[u8]) -> bool
    ensures { result ≡ may_begin (first_word line.now) }
{
    match first_word(line) {
        None => false,
        Some(word) => word.first() == Some(&b'@') || form_of(word).is_some(),
    }
}

/// Whether a line of the grammar is a command that the session serves.
fn asks(nodes: u8, line: &[u8]) -> bool
    ensures { result ≡ asks (parsed_line false nodes line.now) }
{
    match parse_line(line, false, nodes) {
        Ok(Some(command)) => is_served(&command),
        Ok(None) | Err(_) => false,
    }
}

/// Whether the session serves a command.
fn is_served(command: &Command) -> bool
    ensures { result ≡ is_served command.now }
{
    match command {
        Command::Quit
        | Command::Begin { .. }
        | Command::Operate { .. }
        | Command::Commit { .. }
        | Command::Abort { .. }
        | Command::Kill { .. }
        | Command::Cut { .. }
        | Command::Tick { .. }
        | Command::Micro
        | Command::Gcp
        | Command::Lcp
        | Command::View
        | Command::Crash
        | Command::Restart
        | Command::Rows { .. }
        | Command::Digest { .. } => true,
        _ => false,
    }
}
