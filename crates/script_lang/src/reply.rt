//! The text of replies: one line for each.
ghost use Rattle.std.specs.Prelude.{◌≡◌, ◌++◌, string_bytes, OnOk, OnErr, IfOk};
ghost use Rattle.sig_core.specs.declared.reply.ApiReply.TheVariants.{Cut, Rows};
ghost use Rattle.script_lang.specs.RefusalText.{refused_name};
ghost use Rattle.script_lang.specs.ReplyText.{name_of, name_prefix, reply_words, reply_text};

mod answer;
mod backup;
mod digest;
mod epoch;
mod load;
mod outcome;
mod refusal;
mod row;
mod stop;
mod subscriber;
mod unique;
mod view;
mod waiting;
mod words;

use answer::add_answer;
use backup::{add_backup, add_dump, add_put, ended_words, too_large_words};
use digest::add_digest;
use epoch::add_epoch;
use load::load_words;
use outcome::add_outcome;
use refusal::add_refusal;
use row::add_row;
use sig_core::{ApiReply, NoMemory, Refusal};
use std::alloc::Global;
use stop::add_stop;
use subscriber::{add_changes, add_subscribed, failed_words};
use unique::add_unique;
use view::add_view;
use waiting::add_waiting;
use words::add;

/// For how many bytes of a line there is room at first. Nearly all lines fit.
const LINE: usize = 32;

/// Adds the line of a reply, with its newline, to a text. Where the reply has the name of a
/// transaction, the line begins with `@`, the name and a space. Numbers are in decimal, and a
/// digest in hexadecimal.
///
/// # Errors
/// `NoMemory`, and then the text is as it was.
pub fn print_reply(alloc: Global, reply: &ApiReply, text: &mut Vec<u8>) -> Result<(), NoMemory>
    ensures ok { OnOk result (text.new.items ≡ text.old.items ++ reply_text reply.now) }
    ensures err { OnErr result (text.new.items ≡ text.old.items) }
{
    let mut line = Vec::with_capacity(alloc, LINE)?;
    add_name(alloc, name_of(reply), &mut line)?;
    add_words(alloc, reply, &mut line)?;
    line.push(b'\n')?;
    text.extend_from_slice(&line)?;
    Ok(())
}

/// The name of the transaction that a reply is about, if it has one: the line of a reply with a name
/// begins with it.
pub fn name_of(reply: &ApiReply) -> Option<u16>
    ensures { result ≡ name_of reply.now }
{
    match reply {
        ApiReply::Begun { name, .. } => Some(*name),
        ApiReply::Answered { name, .. }
        | ApiReply::Ended { name, .. }
        | ApiReply::Pending { name, .. }
        | ApiReply::Unique { name, .. } => *name,
        ApiReply::Refused { name, refusal } => refused_name(*name, refusal),
        ApiReply::Stopped { .. }
        | ApiReply::Ticked { .. }
        | ApiReply::Cut { .. }
        | ApiReply::Closed { .. }
        | ApiReply::Durable { .. }
        | ApiReply::Checkpoint { .. }
        | ApiReply::Started { .. }
        | ApiReply::StartEnded { .. }
        | ApiReply::Row { .. }
        | ApiReply::Rows { .. }
        | ApiReply::Digest { .. }
        | ApiReply::View { .. }
        | ApiReply::Crashed
        | ApiReply::Restarted { .. }
        | ApiReply::BatchEnd
        | ApiReply::Loaded { .. }
        | ApiReply::Subscribed { .. }
        | ApiReply::Unsubscribed { .. }
        | ApiReply::Changes { .. }
        | ApiReply::SubscriberFailed { .. }
        | ApiReply::BackedUp { .. }
        | ApiReply::BackupEnded { .. }
        | ApiReply::BackupTooLarge { .. }
        | ApiReply::NoBackup { .. }
        | ApiReply::DumpRow { .. }
        | ApiReply::Dumped { .. } => None,
    }
}

// The name that a refusal is told with: none where it isn't about a transaction.
fn refused_name(name: Option<u16>, refusal: &Refusal) -> Option<u16>
    ensures { result ≡ refused_name name refusal.now }
{
    match refusal {
        Refusal::NotOpen
        | Refusal::IsOpen
        | Refusal::Busy
        | Refusal::TooManyOperations
        | Refusal::TooManyOpen => name,
        Refusal::Down
        | Refusal::Running
        | Refusal::NoMember(_)
        | Refusal::NotRunning(_)
        | Refusal::RunningNode(_)
        | Refusal::InView(_)
        | Refusal::Batch(_)
        | Refusal::NoSubscriber(_)
        | Refusal::IsSubscribed(_)
        | Refusal::NotSubscribed(_) => None,
    }
}

// Adds what a line begins with: the name, if there is one.
fn add_name(alloc: Global, name: Option<u16>, line: &mut Vec<u8>) -> Result<(), NoMemory>
    ensures { OnOk result (line.new.items ≡ line.old.items ++ name_prefix name) }
{
    match name {
        None => Ok(()),
        Some(name) => add(line, &format!(in alloc; "@{name} ")?),
    }
}

// Adds the words of a reply, which stand behind the name.
fn add_words(alloc: Global, reply: &ApiReply, line: &mut Vec<u8>) -> Result<(), NoMemory>
    ensures { OnOk result (line.new.items ≡ line.old.items ++ reply_words reply.now) }
{
    match reply {
        ApiReply::Begun { name: _, node } => add(line, &format!(in alloc; "begun {node}")?),
        ApiReply::Answered { name: _, answer } => add_answer(answer, line),
        ApiReply::Ended { name: _, outcome } => add_outcome(alloc, outcome, line),
        ApiReply::Pending { name: _, on } => add_waiting(alloc, on, line),
        ApiReply::Refused { name: _, refusal } => add_refusal(alloc, refusal, line),
        ApiReply::Stopped { node, cause } => add_stop(alloc, *node, cause, line),
        ApiReply::Ticked { rounds } => add(line, &format!(in alloc; "ticked {rounds}")?),
        ApiReply::Cut { one, other } => add(line, &cut_words(alloc, *one, *other)?),
        ApiReply::Closed { epoch } => add_epoch(alloc, "closed ", *epoch, line),
        ApiReply::Durable { epoch } => add_epoch(alloc, "durable ", *epoch, line),
        ApiReply::Checkpoint { epoch } => add_epoch(alloc, "checkpoint ", *epoch, line),
        ApiReply::Started { node } => add(line, &format!(in alloc; "started {node}")?),
        ApiReply::StartEnded { node } => add(line, &format!(in alloc; "start {node} ended")?),
        ApiReply::Row { key, value } => add_row(key.bytes(), value.bytes(), line),
        ApiReply::Rows { node, count } => add(line, &rows_words(alloc, *node, *count)?),
        ApiReply::Digest { node, digest } => add_digest(alloc, *node, digest, line),
        ApiReply::View { view } => add_view(alloc, view, line),
        ApiReply::Crashed => add(line, "crashed"),
        ApiReply::Restarted { epoch } => add_epoch(alloc, "restarted ", *epoch, line),
        ApiReply::BatchEnd => add(line, "end"),
        ApiReply::Loaded {
            transactions,
            committed,
            aborted,
        } => add(
            line,
            &load_words(alloc, *transactions, *committed, *aborted)?,
        ),
        ApiReply::Subscribed { subscriber, epoch } => {
            add_subscribed(alloc, "subscribed ", *subscriber, *epoch, line)
        }
        ApiReply::Unsubscribed { subscriber, epoch } => {
            add_subscribed(alloc, "unsubscribed ", *subscriber, *epoch, line)
        }
        ApiReply::Changes {
            subscriber,
            epoch,
            changes,
        } => add_changes(alloc, *subscriber, *epoch, *changes, line),
        ApiReply::SubscriberFailed { subscriber, count } => {
            add(line, &failed_words(alloc, *subscriber, *count)?)
        }
        ApiReply::BackedUp { backup, epoch } => add_backup(alloc, *backup, *epoch, line),
        ApiReply::BackupEnded { backup, view } => add(line, &ended_words(alloc, *backup, *view)?),
        ApiReply::BackupTooLarge { backup, size } => {
            add(line, &too_large_words(alloc, *backup, *size)?)
        }
        ApiReply::NoBackup { backup } => add(line, &format!(in alloc; "no backup {backup}")?),
        ApiReply::DumpRow { key, value } => add_put(key.bytes(), value.bytes(), line),
        ApiReply::Dumped {
            backup,
            rows,
            epoch,
        } => add_dump(alloc, *backup, *rows, *epoch, line),
        ApiReply::Unique { name: _, answer } => add_unique(alloc, answer, line),
    }
}

// The words of a link that was cut.
fn cut_words(alloc: Global, one: u8, other: u8) -> Result<String, NoMemory>
    ensures { IfOk result (λ words. string_bytes words ≡ reply_words (Cut one other)) }
{
    Ok(format!(in alloc; "cut {one} {other}")?)
}

// The words of how many rows a node has.
fn rows_words(alloc: Global, node: u8, count: u64) -> Result<String, NoMemory>
    ensures { IfOk result (λ words. string_bytes words ≡ reply_words (Rows node count)) }
{
    Ok(format!(in alloc; "node {node} rows {count}")?)
}
