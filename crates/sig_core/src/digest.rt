//! The digest of a key, which tells its fragment and its bucket.
ghost use Rattle.std.specs.Prelude.{◌≡◌};
ghost use Rattle.sig_core.specs.Digest.{digest_word, hash_of};

use crate::key::Key;
use md5::{Digest, Md5};

/// The first four bytes of the key's MD5 digest (RFC 1321), as a number with the highest byte first,
/// which tell its fragment, and the four behind them, which tell its bucket. The first are no help
/// within a fragment.
#[tactic(auto, unfolding(crate::specs::Digest::hash_of))]
pub fn digest_words(key: &Key) -> (u32, u32)
    ensures word { result.0 ≡ digest_word key.now }
    ensures hash { result.1 ≡ hash_of key.now }
{
    let digest = Md5::digest(key.bytes());
    (
        u32::from_be_bytes([digest[0], digest[1], digest[2], digest[3]]),
        u32::from_be_bytes([digest[4], digest[5], digest[6], digest[7]]),
    )
}

/// The first four bytes of the key's MD5 digest, as a number with the highest byte first.
pub fn digest_word(key: &Key) -> u32
    ensures { result ≡ digest_word key.now }
{
    let (word, _) = digest_words(key);
    word
}
