//! What the shell asks of the API.
use crate::held_op::HeldOp;
use crate::op::Op;
use crate::seq::Seq;

/// A line of a batch. Names are the numbers that a script gives to transactions, from 1.
#[derive(Clone, Copy)]
pub enum BatchLine {
    Begin { name: u16, node: Option<u8> },
    Operate { name: u16, op: Op },
    /// Stop the node when its coordinator's host has taken this many signals after the order.
    Kill { node: u8, after: u32 },
    Gcp,
    Lcp,
    /// Close the current epoch, in memory alone.
    Micro,
    /// An operation where values are unique.
    Unique { name: u16, op: Op },
}

/// A request of the shell: one kind for each command, and two that ask what is unanswered.
#[derive(Drop)]
pub enum ApiReq {
    Begin { name: u16, node: Option<u8> },
    /// Without a name the operation is a transaction of its own, committed at once.
    Operate { name: Option<u16>, op: HeldOp },
    Commit { name: u16 },
    Abort { name: u16 },
    Batch { lines: Seq<BatchLine> },
    Kill { node: u8 },
    Cut { one: u8, other: u8 },
    /// A round, from 1, of as many as `of`.
    Tick { round: u8, of: u8 },
    /// Close the current epoch, and make it durable.
    Gcp,
    Lcp,
    /// `own` is the epoch of the rows that the node has on its disk, where it has rows of its own.
    Start { node: u8, own: Option<u64> },
    Crash,
    Restart,
    Rows { node: u8 },
    Digest { node: u8 },
    View,
    /// Find out what each unanswered operation waits for.
    Waits,
    /// Reply what is still unanswered.
    Pending,
    /// Close the current epoch, in memory alone.
    Micro,
    /// Hand this subscriber, from 1, the changes of each epoch that is closed from now on.
    Subscribe { subscriber: u16 },
    Unsubscribe { subscriber: u16 },
    Backup { backup: u32 },
    /// Tell the rows of a backup, of a cluster that crashed.
    Dump { backup: u32 },
    /// `Operate` where values are unique. A value is looked up by a read of its key in the index.
    Unique { name: Option<u16>, op: HeldOp },
}
