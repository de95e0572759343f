//! Records whose images lie where they were read.
ghost use Rattle.std.specs.Prelude.{◌≡◌, ◌≤◌, length, position, None};
ghost use Rattle.sig_core.specs.Word.{is_unprintable};
ghost use Rattle.redo_format.specs.Lent.{redo_of};

use sig_core::{Key, Redo, TxId, Value};
use std::marker::Model;

/// An image where it was read: at most 200 printable bytes. Contracts see the bytes.
#[derive(Drop)]
pub struct LentImage<'a> {
    bytes: &'a [u8],
}

impl<'a> Model for LentImage<'a> {
    ghost use Rattle.std.specs.Prelude.{◌≡◌, ◌≤◌, List, ℕ, length, position, None};
    ghost use Rattle.sig_core.specs.Word.{is_unprintable};

    ghost Value = { List ℕ };

    ghost view = { λ i. i.bytes.now };

    ghost invariant = { λ i. (length i.bytes.now ≤ 200) × (position is_unprintable i.bytes.now ≡ None) };
}

impl<'a> LentImage<'a> {
    /// The image that these bytes are.
    pub(crate) fn new(bytes: &'a [u8]) -> LentImage<'a>
        requires most { length bytes.now ≤ 200 }
        requires printable { position is_unprintable bytes.now ≡ None }
        ensures { result ≡ bytes.now }
    {
        LentImage { bytes }
    }

    /// The same image once more.
    #[inline(always)]
    pub fn again(&self) -> LentImage<'a>
        ensures { result ≡ self.now }
    {
        LentImage { bytes: self.bytes }
    }

    /// The image's bytes, where they lie.
    #[inline(always)]
    pub fn bytes(&self) -> &'a [u8]
        ensures value { result.now ≡ self.now }
        ensures most { length self.now ≤ 200 }
        ensures printable { position is_unprintable self.now ≡ None }
    {
        self.bytes
    }

    /// The image as a value.
    pub fn to_value(&self) -> Value
        ensures { result ≡ self.now }
    {
        match Value::new(self.bytes) {
            Ok(value) => value,
            Err(_) => unreachable!(),
        }
    }
}

/// A redo record, with its image where it was read: it is moved faster than one with room for the longest image.
#[derive(Drop)]
pub enum LentRedo<'a> {
    /// A replica prepared the transaction's image of the row; no image is a deletion.
    Prepare {
        tx: TxId,
        /// Below 32.
        fragment: u8,
        key: Key,
        image: Option<LentImage<'a>>,
    },
    /// It committed that image.
    Commit {
        tx: TxId,
        epoch: u64,
        key: Key,
    },
    /// It gave that image up.
    Abort {
        tx: TxId,
        key: Key,
    },
}

impl<'a> LentRedo<'a> {
    /// The record itself.
    pub(crate) fn to_redo(&self) -> Redo
        ensures { result ≡ redo_of self.now }
    {
        match self {
            LentRedo::Prepare {
                tx,
                fragment,
                key,
                image,
            } => Redo::Prepare {
                tx: *tx,
                fragment: *fragment,
                key: *key,
                image: value_of(image),
            },
            LentRedo::Commit { tx, epoch, key } => Redo::Commit {
                tx: *tx,
                epoch: *epoch,
                key: *key,
            },
            LentRedo::Abort { tx, key } => Redo::Abort { tx: *tx, key: *key },
        }
    }
}

// The value that an image is, where there is one.
fn value_of(image: &Option<LentImage<'_>>) -> Option<Value>
    ensures { result ≡ image.now }
{
    match image {
        Some(image) => Some(image.to_value()),
        None => None,
    }
}
