//! The order in which the replies to a command are printed.
ghost use Rattle.std.specs.Prelude.{◌≡◌, [], IfOk, OnOk, filter, map, position};
ghost use Rattle.std.specs.List.{list_all};
ghost use Rattle.shell_top.specs.Arranged.{arranged, by_rank, insert, is_before, is_others, late, rank_of};
ghost use Rattle.shell_top.specs.Subject.{is_own};

use crate::subject::{Subject, is_own};
use script_lang::name_of;
use sig_core::{ApiReply, NoMemory};
use std::alloc::Global;

/// Where the closings of epochs stand that no command asked for: behind the stops, by node.
const LATE: u32 = 256;

/// The replies to a command that is about this, in the order in which they are printed: its own
/// first, then the stops of nodes, by node, then late closings of epochs, and then those to other
/// transactions, by name.
///
/// # Errors
/// `NoMemory`.
pub fn arranged(
    alloc: Global,
    asked: Subject,
    replies: &[ApiReply],
) -> Result<Vec<ApiReply>, NoMemory>
    ensures { IfOk result (λ ordered. ordered.items ≡ arranged asked replies.now) }
{
    let mut ordered = own(alloc, asked, replies)?;
    let others = others(alloc, asked, replies)?;
    let others = by_rank(alloc, &others)?;
    ordered.extend_from_slice(&others)?;
    Ok(ordered)
}

/// Whether all replies are the own ones of a command that is about this.
pub fn are_own(asked: Subject, replies: &[ApiReply]) -> bool
    ensures { result ≡ list_all (is_own asked) replies.now }
{
    replies.iter().all(|reply| is_own(asked, reply))
}

// The replies that are the command's own.
fn own(alloc: Global, asked: Subject, replies: &[ApiReply]) -> Result<Vec<ApiReply>, NoMemory>
    ensures { IfOk result (λ own. own.items ≡ filter (is_own asked) replies.now) }
{
    let mut own = Vec::new(alloc);
    for reply in replies {
        if is_own(asked, reply) {
            own.push(*reply)?;
        }
    }
    Ok(own)
}

// Those that are not, as they are told late.
fn others(alloc: Global, asked: Subject, replies: &[ApiReply]) -> Result<Vec<ApiReply>, NoMemory>
    ensures { IfOk result (λ others. others.items ≡ map late (filter (is_others asked) replies.now)) }
{
    let mut others = Vec::new(alloc);
    for reply in replies {
        if !is_own(asked, reply) {
            others.push(late(reply))?;
        }
    }
    Ok(others)
}

// A reply to an earlier command: what is about a transaction without a name has the name 0.
fn late(reply: &ApiReply) -> ApiReply
    ensures { result ≡ late reply.now }
{
    match reply {
        ApiReply::Answered { name: None, answer } => ApiReply::Answered {
            name: Some(0),
            answer: *answer,
        },
        ApiReply::Ended {
            name: None,
            outcome,
        } => ApiReply::Ended {
            name: Some(0),
            outcome: *outcome,
        },
        _ => *reply,
    }
}

// The replies by rank, those of one rank in their order.
fn by_rank(alloc: Global, replies: &[ApiReply]) -> Result<Vec<ApiReply>, NoMemory>
    ensures { IfOk result (λ ordered. ordered.items ≡ by_rank [] replies.now) }
{
    let mut ordered = Vec::new(alloc);
    for reply in replies {
        insert(&mut ordered, reply)?;
    }
    Ok(ordered)
}

// Puts a reply in front of the first that has a greater rank, or behind all.
fn insert(ordered: &mut Vec<ApiReply>, reply: &ApiReply) -> Result<(), NoMemory>
    ensures { OnOk result (ordered.new.items ≡ insert ordered.old.items reply.now) }
{
    match place_of(ordered.as_slice(), reply) {
        Some(at) => ordered.insert(at, *reply)?,
        None => ordered.push(*reply)?,
    }
    Ok(())
}

// The place of the first reply that has a greater rank.
fn place_of(ordered: &[ApiReply], reply: &ApiReply) -> Option<usize>
    ensures { result ≡ position (is_before reply.now) ordered.now }
{
    ordered.iter().position(|other| is_before(reply, other))
}

// Whether a reply is printed before another.
fn is_before(reply: &ApiReply, other: &ApiReply) -> bool
    ensures { result ≡ is_before reply.now other.now }
{
    rank_of(reply) < rank_of(other)
}

// By what the replies are ordered that are not the command's own.
fn rank_of(reply: &ApiReply) -> u32
    ensures { result ≡ rank_of reply.now }
{
    match (reply, name_of(reply)) {
        (ApiReply::Stopped { node, cause: _ }, _) => u32::from(*node),
        (_, None) => LATE,
        (_, Some(name)) => LATE + 1 + u32::from(name),
    }
}
