//! What a command is about, and which replies are its own.
ghost use Rattle.std.specs.Prelude.{◌≡◌};
ghost use Rattle.shell_top.specs.Subject.{is_alone, is_closing, is_killed, is_named, is_own, is_stop_of, subject_in};

use script_lang::{Command, name_of};
use sig_core::{ApiReply, StopCause};

/// What a command is about.
#[derive(Clone, Copy)]
pub enum Subject {
    /// The transaction of that name.
    Named(u16),
    /// An operation that is a transaction of its own.
    Alone,
    /// The stop of that node.
    Stop(u8),
    /// The closing of an epoch, or a local checkpoint.
    Closing,
    /// The cluster, or rows.
    Other,
}

/// What a command is about.
pub fn subject_of(command: &Command) -> Subject
    ensures { result ≡ subject_in command.now }
{
    match command {
        Command::Begin { name, node: _ } | Command::Commit { name } | Command::Abort { name } =>
            Subject::Named(*name),
        Command::Operate {
            name: Some(name),
            op: _,
        } => Subject::Named(*name),
        Command::Operate { name: None, op: _ } => Subject::Alone,
        Command::Kill { node } => Subject::Stop(*node),
        Command::Gcp | Command::Micro | Command::Lcp => Subject::Closing,
        _ => Subject::Other,
    }
}

/// Whether a reply is an own one of a command that is about this: it tells what that asked for, and
/// of no transaction of another name, nor of a stop or closing that it didn't ask for.
pub fn is_own(asked: Subject, reply: &ApiReply) -> bool
    ensures { result ≡ is_own asked reply.now }
{
    match reply {
        ApiReply::Stopped { node, cause } => is_killed(cause) && is_stop_of(asked, *node),
        ApiReply::Closed { epoch: _ }
        | ApiReply::Durable { epoch: _ }
        | ApiReply::Checkpoint { epoch: _ } => is_closing(asked),
        ApiReply::Answered {
            name: None,
            answer: _,
        }
        | ApiReply::Ended {
            name: None,
            outcome: _,
        } => is_alone(asked),
        _ => is_named(asked, name_of(reply)),
    }
}

// Whether a reply with this name may be a command's own: one with a name only where that is asked for.
fn is_named(asked: Subject, name: Option<u16>) -> bool
    ensures { result ≡ is_named asked name }
{
    match (asked, name) {
        (_, None) => true,
        (Subject::Named(asked), Some(name)) => asked == name,
        _ => false,
    }
}

fn is_alone(asked: Subject) -> bool
    ensures { result ≡ is_alone asked }
{
    matches!(asked, Subject::Alone)
}

fn is_closing(asked: Subject) -> bool
    ensures { result ≡ is_closing asked }
{
    matches!(asked, Subject::Closing)
}

fn is_stop_of(asked: Subject, node: u8) -> bool
    ensures { result ≡ is_stop_of asked node }
{
    match asked {
        Subject::Stop(asked) => asked == node,
        _ => false,
    }
}

fn is_killed(cause: &StopCause) -> bool
    ensures { result ≡ is_killed cause.now }
{
    matches!(cause, StopCause::Killed)
}
