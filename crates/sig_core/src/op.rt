//! Operations on rows, and their answers.
ghost use Rattle.std.specs.Prelude.{◌≡◌};
ghost use Rattle.sig_core.specs.Op.{answer_to, image_of, key_of};

use crate::key::Key;
use crate::value::Value;

/// An operation on the row of a key.
#[derive(Clone, Copy, Debug)]
pub enum Op {
    /// Reads under a shared lock.
    Get(Key),
    /// Reads under an exclusive lock.
    GetX(Key),
    /// Stores, whether or not the row is there.
    Put(Key, Value),
    /// Stores a row that is not there.
    Ins(Key, Value),
    /// Stores over a row that is there.
    Upd(Key, Value),
    /// Removes a row that is there.
    Del(Key),
}

impl Op {
    /// The key of the row.
    pub fn key(&self) -> &Key
        ensures { result.now ≡ key_of self.now }
    {
        match self {
            Op::Get(key) | Op::GetX(key) | Op::Del(key) => key,
            Op::Put(key, _) | Op::Ins(key, _) | Op::Upd(key, _) => key,
        }
    }

    /// What the operation answers where its key has this row, or none.
    #[tactic(auto, unfolding(crate::specs::Op::answer_to))]
    pub fn answer_to(&self, row: &Option<Value>) -> Answer
        ensures { result ≡ answer_to self.now row.now }
    {
        match (self, row) {
            (Op::Get(_) | Op::GetX(_), Some(value)) => Answer::Found(*value),
            (Op::Get(_) | Op::GetX(_), None) => Answer::Missing,
            (Op::Ins(_, _), Some(_)) => Answer::E630,
            (Op::Upd(_, _) | Op::Del(_), None) => Answer::E626,
            _ => Answer::Done,
        }
    }

    /// What the operation, as a write that takes effect, makes of the row. None for a deletion, and
    /// for what doesn't write.
    pub fn image(&self) -> Option<Value>
        ensures { result ≡ image_of self.now }
    {
        match self {
            Op::Put(_, value) | Op::Ins(_, value) | Op::Upd(_, value) => Some(*value),
            _ => None,
        }
    }
}

/// What an operation answers. The numbers are those of NDB Cluster's errors.
#[derive(Clone, Copy, Debug, PartialEq, Eq)]
pub enum Answer {
    /// A write took effect.
    Done,
    /// A read found this value.
    Found(Value),
    /// A read found no row.
    Missing,
    /// An update or a deletion found no row: tuple did not exist.
    E626,
    /// An insertion found a row: tuple already existed.
    E630,
}
