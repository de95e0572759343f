//! A key with its number.
ghost use Rattle.std.specs.Prelude.{◌≡◌};
ghost use Rattle.sig_core.specs.Digest.{hash_of};

use crate::digest::digest_words;
use crate::key::Key;

/// A key and the number by which it is put into a bucket, so that its digest is taken once however many
/// calls it is handed to.
#[derive(Clone, Copy)]
pub struct HashedKey {
    pub key: Key,
    pub hash: u32,
    pub ghost hashed: { hash ≡ hash_of key },
}

impl HashedKey {
    /// The key with its number.
    pub fn new(key: &Key) -> HashedKey
        ensures { result.key ≡ key.now }
    {
        let (_, hash) = digest_words(key);
        HashedKey { key: *key, hash }
    }
}
