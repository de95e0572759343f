//! What a line asks of the session.
ghost use Rattle.std.specs.Prelude.{◌≡◌};
ghost use Rattle.script_lang.specs.Line.{first_word};
ghost use Rattle.shell_top.specs.Parsed.{asked, available, is_available, is_operation, is_operator, is_order, is_sign};
ghost use Rattle.shell_top.specs.Parsed.{may_stand, parsed};

use script_lang::{Command, LineFault, first_word, parse_line};

/// What a line asks for.
#[derive(Clone, Copy)]
pub enum Parsed {
    /// The line is empty or a comment.
    Nothing,
    /// A command for the cluster, or for its lives.
    Ask(Command),
    /// The session is to end.
    Quit,
    Fault(LineFault),
}

/// What a line asks for in a cluster of so many nodes. The line comes without its newline, and with
/// the carriage return that may stand before it.
pub fn parse(nodes: u8, line: &[u8]) -> Parsed
    ensures { result ≡ parsed nodes line.now }
{
    if !may_stand(line) {
        return Parsed::Fault(LineFault::UnknownCommand);
    }
    parse_available(nodes, line)
}

/// Whether a line is empty or begins with a word that may begin one by now.
fn may_stand(line: &[u8]) -> bool
    ensures { result ≡ may_stand (first_word line.now) }
{
    match first_word(line) {
        None => true,
        Some(word) => is_available(word),
    }
}

/// Whether a word begins a comment or names a transaction, or is a command that the session serves
/// by now. This and the four below are the one list of these.
fn is_available(word: &[u8]) -> bool
    ensures { result ≡ is_available word.now }
{
    is_sign(word) || is_operation(word) || is_order(word) || is_operator(word)
}

fn is_sign(word: &[u8]) -> bool
    ensures { result ≡ is_sign word.now }
{
    word.first() == Some(&b'#') || word.first() == Some(&b'@')
}

fn is_operation(word: &[u8]) -> bool
    ensures { result ≡ is_operation word.now }
{
    word == b"get".as_slice()
        || word == b"getx".as_slice()
        || word == b"put".as_slice()
        || word == b"ins".as_slice()
        || word == b"upd".as_slice()
        || word == b"del".as_slice()
}

fn is_order(word: &[u8]) -> bool
    ensures { result ≡ is_order word.now }
{
    word == b"begin".as_slice()
        || word == b"commit".as_slice()
        || word == b"abort".as_slice()
        || word == b"tick".as_slice()
        || word == b"rows".as_slice()
        || word == b"digest".as_slice()
        || word == b"crash".as_slice()
        || word == b"restart".as_slice()
        || word == b"quit".as_slice()
}

fn is_operator(word: &[u8]) -> bool
    ensures { result ≡ is_operator word.now }
{
    word == b"kill".as_slice()
        || word == b"cut".as_slice()
        || word == b"micro".as_slice()
        || word == b"gcp".as_slice()
        || word == b"lcp".as_slice()
        || word == b"view".as_slice()
}

fn parse_available(nodes: u8, line: &[u8]) -> Parsed
    ensures { result ≡ available nodes line.now }
{
    match parse_line(line, false, nodes) {
        Ok(None) => Parsed::Nothing,
        Ok(Some(command)) => asked(&command),
        Err(fault) => Parsed::Fault(fault),
    }
}

/// What a command asks for.
fn asked(command: &Command) -> Parsed
    ensures { result ≡ asked command.now }
{
    match command {
        Command::Quit => Parsed::Quit,
        Command::Begin { .. }
        | Command::Operate { .. }
        | Command::Commit { .. }
        | Command::Abort { .. }
        | Command::Kill { .. }
        | Command::Cut { .. }
        | Command::Tick { .. }
        | Command::Micro
        | Command::Gcp
        | Command::Lcp
        | Command::View
        | Command::Rows { .. }
        | Command::Digest { .. }
        | Command::Crash
        | Command::Restart => Parsed::Ask(*command),
        _ => Parsed::Fault(LineFault::UnknownCommand),
    }
}
