//! Changes of rows.
use crate::key::Key;
use crate::value::Value;

/// What a row was made by a commit, or by all commits of an epoch.
#[derive(Clone, Copy, Debug, PartialEq, Eq)]
pub struct Change {
    pub key: Key,
    /// None is a deletion.
    pub image: Option<Value>,
}
