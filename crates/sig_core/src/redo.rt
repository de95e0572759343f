//! Redo records: what a journal keeps of a transaction's writes.
ghost use Rattle.std.specs.Prelude.{◌≡◌, ◌≤◌};
ghost use Rattle.sig_core.specs.Redo.{commit_bytes, image_size, prepare_bytes, size_of};

use crate::key::Key;
use crate::member::TxId;
use crate::value::Value;

/// A redo record.
#[derive(Clone, Copy)]
pub enum Redo {
    /// A replica prepared the transaction's image of the row; no image is a deletion.
    Prepare {
        tx: TxId,
        /// Below 32.
        fragment: u8,
        key: Key,
        image: Option<Value>,
    },
    /// It committed that image.
    Commit {
        tx: TxId,
        epoch: u64,
        key: Key,
    },
    /// It gave that image up.
    Abort {
        tx: TxId,
        key: Key,
    },
}

impl Redo {
    /// The bytes that the record takes in a journal, 18 to 252: a kind of one byte, the length of
    /// the whole in two, the transaction in 13; then a fragment of one byte, or an epoch of eight;
    /// then the key behind a length of one byte; in a `Prepare` also one byte that says whether
    /// there is an image, and the image behind a length of one byte.
    #[tactic(auto, unfolding(crate::specs::Redo::size_of))]
    pub fn size(&self) -> u64
        ensures size { result ≡ size_of self.now }
        ensures most { result ≤ 252 }
    {
        match self {
            Redo::Prepare {
                tx: _,
                fragment: _,
                key,
                image,
            } => prepare_size(key, image),
            Redo::Commit {
                tx: _,
                epoch: _,
                key,
            } => commit_size(key),
            Redo::Abort { tx: _, key } => 17 + key.bytes().len() as u64,
        }
    }
}

/// The bytes of a `Prepare` of this key and image.
pub fn prepare_size(key: &Key, image: &Option<Value>) -> u64
    ensures size { result ≡ prepare_bytes key.now image.now }
    ensures most { result ≤ 252 }
{
    19 + key.bytes().len() as u64 + image_size(image)
}

/// The bytes of a `Commit` of this key.
pub fn commit_size(key: &Key) -> u64
    ensures size { result ≡ commit_bytes key.now }
    ensures most { result ≤ 252 }
{
    25 + key.bytes().len() as u64
}

// The bytes that an image takes in a record, if there is one.
fn image_size(image: &Option<Value>) -> u64
    ensures size { result ≡ image_size image.now }
    ensures most { result ≤ 201 }
{
    match image {
        Some(value) => 1 + value.bytes().len() as u64,
        None => 0,
    }
}
