//! Calls of rows, and what is told after each.
use sig_core::{Answer, Key, RowsFault, Value};

/// A call, of a transaction on a key, with a value and an epoch where it takes them.
#[derive(Clone, Copy)]
pub enum Call {
    Room,
    Insert,
    Update,
    Delete,
    Read,
    Write,
    Erase,
    Put,
    Commit,
    Abort,
    Complete,
}

/// What a call came to.
#[derive(Clone, Copy, PartialEq, Eq)]
pub enum Outcome {
    Done,
    Answered(Answer),
    Refused(RowsFault),
    Starved,
}

/// What is told of a key, and of how much there is.
#[derive(Clone, Copy, PartialEq, Eq)]
pub struct Told {
    pub outcome: Outcome,
    pub row: Option<Value>,
    pub epoch: Option<u64>,
    pub seen: Option<Value>,
    pub state: Option<bool>,
    pub records: usize,
}

/// A row, by its place.
#[derive(Clone, Copy, PartialEq, Eq)]
pub struct RowAt {
    pub at: u64,
    pub key: Key,
    pub value: Value,
    pub epoch: Option<u64>,
}
