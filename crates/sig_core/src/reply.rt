//! What the API replies to the shell.
use crate::key::Key;
use crate::op::Answer;
use crate::outcome::{Outcome, StopCause};
use crate::unique::UAnswer;
use crate::value::Value;
use crate::view::View;

/// What an unanswered command waits for.
#[derive(Clone, Copy, Debug, PartialEq, Eq)]
pub enum Waiting {
    /// The transaction of that name holds the lock or the record; one with no name has none.
    HeldBy(Option<u16>),
    /// These two nodes are cut from each other.
    Cut(u8, u8),
    /// This node stopped, and is still in the view.
    Node(u8),
}

/// Why a command did nothing.
#[derive(Clone, Copy, Debug, PartialEq, Eq)]
pub enum Refusal {
    Down,
    Running,
    NotOpen,
    IsOpen,
    NoMember(u8),
    NotRunning(u8),
    RunningNode(u8),
    InView(u8),
    Busy,
    TooManyOperations,
    TooManyOpen,
    /// The first name of a batch that is open, declared twice or undeclared, or has too much.
    Batch(u16),
    NoSubscriber(u16),
    IsSubscribed(u16),
    NotSubscribed(u16),
}

/// A reply: one kind for each line of text.
#[derive(Clone, Copy)]
pub enum ApiReply {
    Begun {
        name: u16,
        node: u8,
    },
    Answered {
        name: Option<u16>,
        answer: Answer,
    },
    Ended {
        name: Option<u16>,
        outcome: Outcome,
    },
    Pending {
        name: Option<u16>,
        on: Waiting,
    },
    Refused {
        name: Option<u16>,
        refusal: Refusal,
    },
    Stopped {
        node: u8,
        cause: StopCause,
    },
    Ticked {
        rounds: u8,
    },
    Cut {
        one: u8,
        other: u8,
    },
    Closed {
        epoch: u64,
    },
    Durable {
        epoch: u64,
    },
    Checkpoint {
        epoch: u64,
    },
    Started {
        node: u8,
    },
    StartEnded {
        node: u8,
    },
    Row {
        key: Key,
        value: Value,
    },
    Rows {
        node: u8,
        count: u64,
    },
    Digest {
        node: u8,
        digest: [u8; 32],
    },
    View {
        view: View,
    },
    Crashed,
    Restarted {
        epoch: u64,
    },
    BatchEnd,
    /// The end of a load: so many transactions, and how many of them were committed and aborted.
    Loaded {
        transactions: u32,
        committed: u32,
        aborted: u32,
    },
    /// The subscriber is handed what is closed after this epoch.
    Subscribed {
        subscriber: u16,
        epoch: u64,
    },
    /// The subscriber was handed what was closed up to this epoch.
    Unsubscribed {
        subscriber: u16,
        epoch: u64,
    },
    /// The subscriber was handed so many changes of this epoch.
    Changes {
        subscriber: u16,
        epoch: u64,
        changes: u64,
    },
    /// The subscriber failed, and its count of faults is this.
    SubscriberFailed {
        subscriber: u16,
        count: u64,
    },
    /// The backup has the transactions up to this epoch.
    BackedUp {
        backup: u32,
        epoch: u64,
    },
    /// A view of this number ended the backup.
    BackupEnded {
        backup: u32,
        view: u64,
    },
    /// The data of a node would have so many bytes.
    BackupTooLarge {
        backup: u32,
        size: u64,
    },
    NoBackup {
        backup: u32,
    },
    /// A row of a backup.
    DumpRow {
        key: Key,
        value: Value,
    },
    /// All rows of a backup, which has the transactions up to this epoch.
    Dumped {
        backup: u32,
        rows: u64,
        epoch: u64,
    },
    /// The answer of an operation where values are unique.
    Unique {
        name: Option<u16>,
        answer: UAnswer,
    },
}
